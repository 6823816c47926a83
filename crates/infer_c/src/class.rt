//! Classes as numbers and as texts.
ghost use Rattle.std.specs.Prelude.{◌≡◌};
ghost use Rattle.infer_c.specs.Codes.{IsClassOf, class_code};
ghost use Rattle.infer_label.specs.Line.{class_name};
ghost use Rattle.infer_more.specs.Ended.{ended};

use infer::MatcherType;

pub fn code(class: MatcherType) -> i32
    ensures { result ≡ class_code class }
{
    match class {
        MatcherType::App => 0,
        MatcherType::Archive => 1,
        MatcherType::Audio => 2,
        MatcherType::Book => 3,
        MatcherType::Doc => 4,
        MatcherType::Font => 5,
        MatcherType::Image => 6,
        MatcherType::Text => 7,
        MatcherType::Video => 8,
        MatcherType::Custom => 9,
    }
}

/// The class with this number.
pub fn of(code: i32) -> Option<MatcherType>
    ensures { IsClassOf code result }
{
    match code {
        0 => Some(MatcherType::App),
        1 => Some(MatcherType::Archive),
        2 => Some(MatcherType::Audio),
        3 => Some(MatcherType::Book),
        4 => Some(MatcherType::Doc),
        5 => Some(MatcherType::Font),
        6 => Some(MatcherType::Image),
        7 => Some(MatcherType::Text),
        8 => Some(MatcherType::Video),
        9 => Some(MatcherType::Custom),
        _ => None,
    }
}

/// The name of the class with a zero after it.
pub fn ended_name(class: MatcherType) -> &'static str
    ensures { result.now ≡ ended (class_name class) }
{
    match class {
        MatcherType::App => "app\0",
        MatcherType::Archive => "archive\0",
        MatcherType::Audio => "audio\0",
        MatcherType::Book => "book\0",
        MatcherType::Doc => "doc\0",
        MatcherType::Font => "font\0",
        MatcherType::Image => "image\0",
        MatcherType::Text => "text\0",
        MatcherType::Video => "video\0",
        MatcherType::Custom => "custom\0",
    }
}
