//! HTML and XML, which begin with "<" after white space.
ghost use Rattle.std.specs.Prelude.{◌≡◌, map, option_map};
ghost use Rattle.mime_sniff.specs.Listed.{rule_listed};
ghost use Rattle.infer_deep.specs.Joined.{NoneBegins};
ghost use Rattle.infer_deep.specs.Text.{IsSpace};
ghost use Rattle.mime_sniff.specs.Rule.{Accepts, FitsRule, FindsFirst};
ghost use Rattle.mime_sniff.specs.Table.{markup_rules, xml_rules};

use crate::row::{Row, first_type, one_row};
use infer_deep::text::{after_white_space, is_html};

/// The type of the first rule of markup, which is the one of HTML or that of XML. The standard's tags are those of the library.
#[inline(always)]
pub(crate) fn of_markup(
    header: &[u8],
    html: &'static str,
    xml: &'static str,
) -> Option<&'static str>
    ensures { FindsFirst (Accepts header.now) (markup_rules html.now xml.now) (option_map (λ t. t.now) result) }
{
    let text = after_white_space(header);
    if text.is_empty() || text[0] != b'<' {
        return None;
    }
    of_tag(text, html, xml)
}

/// The same of what begins "<": a function of its own, so that other bytes save no registers for it.
#[inline(never)]
fn of_tag(text: &[u8], html: &'static str, xml: &'static str) -> Option<&'static str>
    requires { NoneBegins IsSpace text.now }
    ensures { FindsFirst (FitsRule text.now) (markup_rules html.now xml.now) (option_map (λ t. t.now) result) }
{
    if is_html(text) {
        return Some(html);
    }
    first_type(&xml_rows(xml), text)
}

/// What XML begins with.
#[inline(always)]
#[tactic(auto, unfolding(crate::specs::Table::xml_rules))]
pub(crate) fn xml_rows(xml: &'static str) -> [Row; 1]
    ensures { map rule_listed result ≡ xml_rules xml.now }
{
    [one_row!(text b"<?xml" => xml)]
}
