// A file that the resolver refuses.
ghost use Rattle.std.specs.Prelude.{◌≡◌};
ghost use Rattle.known.specs.Known.{known_of};

use crate::text::is_text;
use crate::version::{is_second, say_second};
use command::forms::talk_beside;
use command::status::{NO, said};
use files::host::Host;
use files::standard::error_noted;
use refusal::{DEEP, NOT_A_FORM, Refusal, Told};
use view::accepted::{is_resolved, say_resolved};
use view::refusal::say_refusal;
use words::refusals::say_where;
use words::{Talk, say};

// No form at all; a form whose names alone are refused; one that is resolved already; or rows that make no form.
#[derive(Clone, Copy)]
pub enum Known {
    NoForm,
    Whole,
    Resolved,
    Broken,
}

// By the refusal's number, and whether the form is resolved already.
pub fn what_is(number: u32, resolved: bool) -> Known
    ensures { result ≡ known_of number resolved }
{
    if number == NOT_A_FORM {
        Known::NoForm
    } else if DEEP < number {
        Known::Whole
    } else if resolved {
        Known::Resolved
    } else {
        Known::Broken
    }
}

// Of what is no form: whether it is empty, looks like text, or is a form of version 2.
fn say_no_form(talk: Talk<'_>, bytes: &[u8], refusal: Refusal) {
    if bytes.len() == 0 {
        say_where(talk, refusal.number, refusal.place);
        say(talk, b"this is no form: the file is empty\n");
    } else if is_second(bytes) {
        say_where(talk, refusal.number, refusal.place);
        say_second(talk);
    } else if is_text(bytes) {
        say_where(talk, refusal.number, refusal.place);
        say(
            talk,
            b"this is no form: this looks like text: wnt takes rows\n",
        );
    } else {
        say_refusal(talk, bytes, refusal.number, refusal.place, 0, 0);
    }
}

fn say_resolved_before(talk: Talk<'_>, form: &[u8], refusal: Refusal) {
    say_where(talk, refusal.number, refusal.place);
    say_resolved(talk, form);
}

// A refusal of the steps, and what it tells.
fn say_steps(talk: Talk<'_>, form: &[u8], refusal: Refusal, told: Told) {
    say_refusal(
        talk,
        form,
        refusal.number,
        refusal.place,
        told.space,
        told.first,
    );
}

// A refusal in words, which begin with what the file is; and what it tells.
pub fn say_told(talk: Talk<'_>, form: &[u8], refusal: Refusal, told: Told) {
    match what_is(refusal.number, is_resolved(form)) {
        Known::NoForm => say_no_form(talk, form, refusal),
        Known::Resolved => say_resolved_before(talk, form, refusal),
        Known::Whole | Known::Broken => say_steps(talk, form, refusal, told),
    }
}

// The same of a refusal that tells nothing besides.
pub fn say_refused(talk: Talk<'_>, form: &[u8], refusal: Refusal) {
    say_told(talk, form, refusal, Told { space: 0, first: 0 });
}

// A refusal beside a form that was to go to a path, as the answer of a command.
pub fn refuse_told(host: Host<'_>, form: &[u8], path: &[u8], refusal: Refusal, told: Told) -> u8 {
    let before = error_noted(host);
    say_told(host.to(talk_beside(path)), form, refusal, told);
    said(host, NO, before)
}

// The same of a refusal that tells nothing besides.
pub fn refuse_form(host: Host<'_>, form: &[u8], path: &[u8], refusal: Refusal) -> u8 {
    refuse_told(host, form, path, refusal, Told { space: 0, first: 0 })
}
