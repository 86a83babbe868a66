// Refusals 1 to 5 of a form inside a root: it may open one scope fewer than a form by itself.
ghost use Rattle.std.specs.Prelude.{◌≡◌};
ghost use Rattle.limits.specs.Held.{limits_of, setting};
ghost use Rattle.whole_form.specs.Whole.{form_of};
ghost use Rattle.resolver.specs.Admit.{admit, Enough};
ghost use Rattle.member_laws.specs.Within.{inner};

use form::header::header_to;
use limits::{Limits, of_input};
use refusal::{ROOM, Refusal};
use resolver::run::header_size;
use whole_form::read::read_rows;

// What a form of the setting at place i is held to.
fn held(i: usize) -> Limits
    ensures { result ≡ limits_of (inner (setting i)) }
{
    let l = of_input(i);
    Limits {
        version: l.version,
        header: l.header,
        wide: l.wide,
        names: l.names,
        rows: l.rows,
        scopes: l.scopes - 1,
        rules: l.rules,
    }
}

// Refusals 1 to 5 of a form that is held to the setting at place i, where the output has this much room; else how many rows it has.
pub fn admitted_inside(form: &[u8], i: usize, room: usize) -> Result<usize, Refusal>
    ensures { (result ≡ form_of (admit (inner (setting i)) form.now room)) × Enough result (inner (setting i)) form.now room }
{
    let limits = held(i);
    let rows = header_to(form, limits)?;
    let header = header_size(i);
    if room < header + 64 * rows {
        return Err(Refusal {
            number: ROOM,
            place: 0,
        });
    }
    read_rows(&form[header..], limits, rows)
}
