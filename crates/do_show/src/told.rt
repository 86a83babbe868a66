// The same as objects of JSON: first what the form is, then its rows or the references with a place.
use command::status::{DONE, NO};
use files::host::Host;
use known::file::{Known, what_is};
use view::accepted::is_resolved;
use view_json::{tell_form, tell_place, tell_rows};

fn tell_asked(host: Host<'_>, form: &[u8], names: &[u8], asked: Option<u32>) -> u8 {
    match asked {
        None => {
            tell_rows(host.out(), names, form);
            DONE
        }
        Some(place) => {
            if tell_place(host.out(), names, form, place) {
                DONE
            } else {
                NO
            }
        }
    }
}

// The resolver's answer is a refusal's number and place, or 0 and 0. What is no form has no rows to tell of.
pub(crate) fn tell(
    host: Host<'_>,
    form: &[u8],
    names: &[u8],
    asked: Option<u32>,
    number: u32,
    place: u32,
) -> u8 {
    tell_form(host.out(), form, number, place);
    match what_is(number, is_resolved(form)) {
        Known::NoForm => NO,
        Known::Whole => tell_asked(host, form, names, asked),
        Known::Resolved => tell_asked(host, form, names, asked),
        Known::Broken => {
            let status = tell_asked(host, form, names, asked);
            if number == 0 { status } else { NO }
        }
    }
}
