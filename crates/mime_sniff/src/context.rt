//! What a resource is loaded for.

/// What a resource is loaded for.
#[derive(Clone, Copy)]
pub enum Context {
    /// A page.
    Browsing,
    /// An image.
    Image,
    /// Audio or video.
    AudioOrVideo,
    /// A font.
    Font,
    /// A plugin.
    Plugin,
    /// A style sheet.
    Style,
    /// A script.
    Script,
    /// Subtitles.
    TextTrack,
    /// A manifest of what to keep.
    CacheManifest,
}
