//! What is known of a resource before its bytes are looked at.
use mime_types::MimeType;

/// What is known of a resource before its bytes are looked at.
#[derive(Clone, Copy)]
pub struct Supplied<'a> {
    /// The type that was supplied, as that of the header `Content-Type`, or none.
    pub mime_type: Option<MimeType<'a>>,
    /// Whether sniffing is forbidden, as by `X-Content-Type-Options: nosniff`.
    pub no_sniff: bool,
    /// Whether the header is one that old servers send of every file, [`is_apache_bug`](crate::is_apache_bug).
    pub check_for_apache_bug: bool,
}
