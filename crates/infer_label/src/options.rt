//! What a line may be asked for.
ghost use Rattle.std.specs.Prelude.{◌≡◌};
ghost use Rattle.infer_label.specs.Options.{default_options, options_listed, gives_why};

/// What an input is identified by.
#[derive(Clone, Copy, Debug)]
pub enum Look {
    /// Its name and its bytes.
    NameAndBytes,
    /// Its bytes alone.
    Bytes,
    /// The built-in types alone.
    BuiltIn,
    /// What a browser makes of its bytes.
    Browser,
    /// The same where sniffing is forbidden.
    BrowserForbidden,
}

/// How a line is written.
#[derive(Clone, Copy, Debug)]
pub enum Form {
    /// As a text.
    Text,
    /// As a text: the MIME type and how it is encoded.
    Mime,
    /// As an object of JSON.
    Json,
    /// As a row of CSV.
    Csv,
}

/// What is reported of a file that is not looked at.
#[derive(Clone, Copy, Debug)]
pub enum Note {
    /// Why it could not be read.
    Fault,
    /// What it is, if it has no bytes.
    Kind,
}

/// What the options of a line say.
#[derive(Clone, Copy)]
pub struct Options<'a> {
    /// What an input is identified by.
    pub look: Look,
    /// How its line is written.
    pub form: Form,
    /// The types that are asked before all others, as a text.
    pub own: Option<&'a [u8]>,
    /// The content type that a browser was told, if it was told one.
    pub content_type: Option<&'a [u8]>,
    /// Whether to report why the bytes have their answer.
    pub why: bool,
    /// Whether the name is left out.
    pub is_unnamed: bool,
    /// How many bytes the file has, if CSV reports that.
    pub size: Option<usize>,
}

impl<'a> Options<'a> {
    /// What is so if nothing else is asked for.
    pub fn new() -> Options<'a>
        ensures { options_listed result ≡ default_options }
    {
        Options {
            look: Look::NameAndBytes,
            form: Form::Text,
            own: None,
            content_type: None,
            why: false,
            is_unnamed: false,
            size: None,
        }
    }

    /// Whether reasons are reported. Of types of one's own there are none.
    pub fn gives_why(&self) -> bool
        ensures { result ≡ gives_why (options_listed self.now) }
    {
        self.why && self.own.is_none()
    }
}
