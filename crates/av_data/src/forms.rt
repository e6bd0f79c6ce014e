//! The forms of a line of a stimulus.

ghost use Rattle.std.specs.Prelude.{◌≡◌, Some, None, IfSome, IfNone};
ghost use Rattle.av_data.specs.Reading.{is_empty, cycles_digits, setting_by, setting_behind, setting_in};
ghost use Rattle.av_data.specs.inner.Settings.{view_setting};

use crate::lines::first_part;
use crate::spelling::are_digits;
use av_net::is_name;

/// What stands behind `at`: the digits of a cycle, a name, and the digits of a value.
#[derive(Clone, Copy)]
pub(crate) struct Setting<'a> {
    pub(crate) cycle: &'a [u8],
    pub(crate) port: &'a [u8],
    pub(crate) value: &'a [u8],
}

/// The digits of `cycles N`.
#[tactic(auto, unfolding(crate::specs::Reading::cycles_digits))]
pub(crate) fn cycles_digits(text: &[u8]) -> Option<&[u8]>
    ensures some { IfSome result (λ digits. cycles_digits text.now ≡ Some digits.now) }
    ensures none { IfNone result (cycles_digits text.now ≡ None) }
{
    let (word, rest) = first_part(text);
    let (digits, rest) = first_part(rest);
    let (extra, _) = first_part(rest);
    if word == b"cycles".as_slice() && are_digits(digits) && extra.is_empty() {
        Some(digits)
    } else {
        None
    }
}

fn checked<'a>(word: &[u8], setting: Setting<'a>, extra: &[u8]) -> Option<Setting<'a>>
    ensures some { IfSome result (λ s. setting_by word.now setting.entry.cycle.now
        setting.entry.port.now setting.entry.value.now extra.now ≡ Some (view_setting s)) }
    ensures none { IfNone result (setting_by word.now
        setting.entry.cycle.now setting.entry.port.now setting.entry.value.now extra.now ≡ None) }
{
    if word == b"at".as_slice()
        && are_digits(setting.cycle)
        && is_name(setting.port)
        && are_digits(setting.value)
        && extra.is_empty()
    {
        Some(setting)
    } else {
        None
    }
}

fn setting_behind<'a>(word: &[u8], text: &'a [u8]) -> Option<Setting<'a>>
    ensures some { IfSome result (λ s. setting_behind word.now text.now ≡ Some (view_setting s)) }
    ensures none { IfNone result (setting_behind word.now text.now ≡ None) }
{
    let (cycle, rest) = first_part(text);
    let (port, rest) = first_part(rest);
    let (value, rest) = first_part(rest);
    let (extra, _) = first_part(rest);
    checked(word, Setting { cycle, port, value }, extra)
}

/// What stands behind `at`, where that is a cycle, a name, a value and nothing else.
#[tactic(auto, unfolding(crate::specs::Reading::setting_in))]
pub(crate) fn setting_in(text: &[u8]) -> Option<Setting<'_>>
    ensures some { IfSome result (λ s. setting_in text.now ≡ Some (view_setting s)) }
    ensures none { IfNone result (setting_in text.now ≡ None) }
{
    let (word, rest) = first_part(text);
    setting_behind(word, rest)
}
