// The same rows behind the header of another version: the refusals of the form as it is, then those of the version asked for.
ghost use Rattle.std.specs.Prelude.{◌≡◌, ◌+◌, ◌*◌, ◌≤◌, length};
ghost use Rattle.std.proofs.lemmas.List.Edits.{sets};
ghost use Rattle.rules.specs.Versions.{all};
ghost use Rattle.rules.specs.Reader.{read};
ghost use Rattle.rules.specs.Answer.{map_answer, rows_in};
ghost use Rattle.converting.specs.Convert.{recast, converted, converted_output, rows_said};
ghost use Rattle.limits.specs.Held.{setting};
ghost use Rattle.reader.specs.ReadTo.{answer_of};
ghost use Rattle.whole_form.specs.Whole.{read_t};
ghost use Rattle.convert.specs.Meaning.{meaning, Says};
ghost use Rattle.convert.specs.Run.{refused_t, place_of_t, lacks_t, Sized, Sound};

use copy::copy;
use limits::of_input;
use refusal::{NOT_A_FORM, ROOM, ROW_COUNT, Refusal};
use whole_form::asked::setting_of;
use whole_form::header::{header_at, put_header};
use whole_form::read::{read_input, read_rows};

// A refusal whose number document 01 gives, and its place.
fn refused(number: u32, place: u32) -> Result<u32, Refusal>
    ensures { result ≡ refused_t number place }
{
    Err(Refusal { number, place })
}

// The place in the list of all settings of the version asked for, 1 or 2, with the rule set of the form's setting if it has that.
fn place_of(version: u32, from: usize) -> usize
    ensures { result ≡ place_of_t version from }
{
    if version == 1 {
        return 0;
    }
    if from == 2 { 2 } else { 1 }
}

// Whether the version asked for lacks the rule set of the form's setting: version 1 has rule set 0 alone.
fn lacks(version: u32, from: usize) -> bool
    ensures { result ≡ lacks_t version from }
{
    (version == 1) & (from == 2)
}

// What the rows of bytes of the setting at `from` are by the limits of the setting at `to`.
fn read_as(form: &[u8], from: usize, rows: usize, to: usize) -> Result<usize, Refusal>
    requires { Sized from form.now rows }
    ensures { result ≡ read_t (answer_of (read (setting to).rules (setting to).version.scopes (rows_in (setting from) form.now))) rows }
{
    let header = header_at(from);
    read_rows(&form[header..], of_input(to), rows)
}

// Writes them behind the header of the setting at `to`.
fn put_form(form: &[u8], from: usize, rows: usize, to: usize, out: &mut [u8])
    requires { Sized from form.now rows }
    ensures { out.new ≡ sets out.old 0 (recast (setting from) (setting to) form.now) }
{
    let header = header_at(from);
    put_header(out, of_input(to), rows);
    copy(&form[header..], out, header_at(to));
}

// A form of the setting at `from` as one of the setting at `to`, which has the same rule set: refusal 5 if it has too many scopes.
fn convert_to(
    form: &[u8],
    from: usize,
    rows: usize,
    to: usize,
    out: &mut [u8],
) -> Result<u32, Refusal>
    requires sound { Sound from form.now rows }
    requires to_value { ((setting to).rules.number ≡ (setting from).rules.number) × (rows ≤ (setting to).version.rows) × ((setting to).version.header + 16 * rows ≤ length out.old) }
    ensures { Says (converted all (setting to).version.number form.now (length out.old)) out.old result out.new }
{
    read_as(form, from, rows, to)?;
    put_form(form, from, rows, to, out);
    Ok(rows as u32)
}

// A form, by the version asked for: refusal 1 if that version lacks the form's rule set, 2 if the form has more rows than it allows.
fn convert_form(
    form: &[u8],
    from: usize,
    rows: usize,
    version: u32,
    out: &mut [u8],
) -> Result<u32, Refusal>
    requires sound { Sound from form.now rows }
    requires le_version { (1 ≤ version) × (version ≤ 2) × ((setting (place_of_t version from)).version.header + 16 * rows ≤ length out.old) }
    ensures { Says (converted all version form.now (length out.old)) out.old result out.new }
{
    if lacks(version, from) {
        return refused(NOT_A_FORM, 0);
    }
    let to = place_of(version, from);
    let limits = of_input(to);
    if limits.rows < rows {
        return refused(ROW_COUNT, 0);
    }
    convert_to(form, from, rows, to, out)
}

// Bytes as long as their header says: refusal 3, then 4 and 5 of the form as it is.
fn convert_sized(
    form: &[u8],
    from: usize,
    rows: usize,
    version: u32,
    out: &mut [u8],
) -> Result<u32, Refusal>
    requires sized { Sized from form.now rows }
    requires le_version { (1 ≤ version) × (version ≤ 2) }
    ensures { Says (converted all version form.now (length out.old)) out.old result out.new }
{
    let header = header_at(place_of(version, from));
    if out.len() < header + 16 * rows {
        return refused(ROOM, 0);
    }
    read_input(form, from)?;
    convert_form(form, from, rows, version, out)
}

// Writes the form to the front of `out`, as a form of the version with this number. A refusal leaves `out` as it was.
pub fn convert(form: &[u8], version: u32, out: &mut [u8]) -> Result<u32, Refusal>
    ensures { (meaning result ≡ map_answer (rows_said all) (converted all version form.now (length out.old))) × (out.new ≡ converted_output all version form.now out.old) }
{
    if version < 1 {
        return refused(NOT_A_FORM, 0);
    }
    if 2 < version {
        return refused(NOT_A_FORM, 0);
    }
    let asked = setting_of(form)?;
    convert_sized(form, asked.setting, asked.rows, version, out)
}
