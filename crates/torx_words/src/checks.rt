//! Why what is read is refused.
ghost use Rattle.std.specs.Prelude.{◌≡◌, map};
ghost use Rattle.std.specs.List.{list_all};
ghost use Rattle.torx_words.specs.Accepted.{fits as fits_shape, has_clash, has_values as has_values_of, may_all_stand as may_all_stand_in, pairs_of, refusal_of};
ghost use Rattle.torx_words.specs.Form.{stands as stands_in};
ghost use Rattle.torx_words.specs.Named.{entry_from, shape_from};

use crate::form::{Form, NamedOption};
use crate::kind::UsageKind;
use crate::parse::Parsed;
use crate::values::{are_names, may_stand};

/// Why what is read is refused by the form, if it is.
pub(crate) fn refusal(form: &Form<'_>, parsed: &Parsed<'_>) -> Option<UsageKind>
    ensures { result ≡ refusal_of (shape_from form.now) parsed.now.reading }
{
    if !fits(form, parsed) {
        return Some(UsageKind::Words);
    }
    if !has_values(form, parsed) {
        return Some(UsageKind::Value);
    }
    if clashes(form, parsed) {
        return Some(UsageKind::Clash);
    }
    None
}

/// Whether the options that must stand do, and there are as many files as the form has.
fn fits(form: &Form<'_>, parsed: &Parsed<'_>) -> bool
    ensures { result ≡ fits_shape (shape_from form.now) parsed.now.reading }
{
    let count = parsed.files().len();
    stand(form.required, parsed) && (form.least <= count && count <= form.most)
}

/// Whether all of these options stand.
fn stand(names: &[&str], parsed: &Parsed<'_>) -> bool
    ensures { result ≡ list_all (λ name. stands_in name parsed.now.reading) (map (λ (w : _). w.now) names.now) }
{
    for name in names {
        if !parsed.stands(*name) {
            return false;
        }
    }
    true
}

/// Whether each value and each file can stand where it does.
fn has_values(form: &Form<'_>, parsed: &Parsed<'_>) -> bool
    ensures { result ≡ has_values_of (shape_from form.now) parsed.now.reading }
{
    are_names(parsed.files()) && may_all_stand(form.options, parsed)
}

/// Whether the values of these options can stand.
fn may_all_stand(options: &[NamedOption<'_>], parsed: &Parsed<'_>) -> bool
    ensures { result ≡ may_all_stand_in parsed.now.reading (map entry_from options.now) }
{
    for option in options {
        if !may_stand(option.kind, parsed.value(option.name)) {
            return false;
        }
    }
    true
}

/// Whether two options stand that exclude each other.
fn clashes(form: &Form<'_>, parsed: &Parsed<'_>) -> bool
    ensures { result ≡ has_clash (pairs_of (shape_from form.now)) parsed.now.reading }
{
    if parsed.stands("marks") && parsed.stands("inputs") {
        return true;
    }
    both_stand(form.clashes, parsed)
}

/// Whether both options of some pair stand.
fn both_stand(pairs: &[(&str, &str)], parsed: &Parsed<'_>) -> bool
    ensures { result ≡ has_clash (map (λ (p : _). (p.0.now, p.1.now)) pairs.now) parsed.now.reading }
{
    for pair in pairs {
        if parsed.stands(pair.0) && parsed.stands(pair.1) {
            return true;
        }
    }
    false
}
