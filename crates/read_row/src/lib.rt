// How far the rows of a form are read, and what a row leads to from there.
#![tactic(auto)]

ghost use Rattle.std.specs.Prelude.{◌≡◌, get_or};
ghost use Rattle.kit.specs.Out.{◌&◌};
ghost use Rattle.rules.specs.Shapes as rules;
ghost use Rattle.rules.specs.Reader.{is_complete, is_none, same_kind};
ghost use Rattle.rows.specs.FromParts.{row_of};
ghost use Rattle.limits.specs.Held.{rules_of};
ghost use Rattle.codes.specs.Values.{Allows};
ghost use Rattle.wants.specs.States.{left_of, Right};
ghost use Rattle.shapes.specs.Starts.{known};
ghost use Rattle.read_row.specs.Machine.{on, wrong, whole, deep, current_in, position_of, outcome_of, more_decls_t, declared_t, declared_left, wanted_t, settled_t, may_end_t, on_field_t, on_decl_t, between_t, pathed_t, stays, on_ref_t, on_outer_t, on_case_t, on_path_t, on_export_t, may_open_t, on_open_t, on_close_t, read_step_t, in_root};

use after_row::{CASE, END, NOTHING, after, after_outer, after_ref};
use codes::{allows, builtin_ok, exports, may_declare, opens};
use parts::Parts;
use rows::row::is_sound;
use shapes::{bare, start};

// ---- how far the rows are read

// How far a field is read: among its DECLs; past them, with what it still wants; at a REF of which PATHs are still to
// come; past its EXPORT; not in one. The first two have operands to come.
const DECLARING: usize = 0;

const WANTING: usize = 1;

const PATHING: usize = 2;

const EXPORTED: usize = 3;

const BETWEEN: usize = 4;

// What the rows were found to be: a whole form, or with a wrong row, or with one scope too many.
pub const WHOLE: usize = 5;

const WRONG: usize = 6;

pub const DEEP: usize = 7;

// The field at hand.
#[derive(Clone, Copy)]
pub struct Field {
    // Which field it is.
    pub code: usize,
    // Part e of its FIELD: the builtin, or whether the type is ascribed.
    pub builtin: usize,
    // How many DECLs it has so far; 2 stands for two or more.
    pub decls: usize,
    // The name of its first DECL, which a scope that it opens must have.
    pub name: usize,
}

// How far the rows are read. All are whole words, so that they stay in registers.
#[derive(Clone, Copy)]
pub struct ReadState {
    // How many scopes are open.
    pub depth: usize,
    // The kind of the innermost of them.
    pub kind: usize,
    // How far its field is read, or what the rows were found to be: one of the constants above.
    pub stage: usize,
    // What the field still wants, as a number of `wants`; only among its DECLs and operands.
    pub left: usize,
    // How many PATHs of a REF are still to come; only behind one.
    pub paths: usize,
    // The field at hand.
    pub field: Field,
}

// ---- numbers of a row

// A byte.
fn wide(byte: u8) -> usize
    ensures { result ≡ byte }
{
    byte as usize
}

// A word.
fn wider(word: u32) -> usize
    ensures { result ≡ word }
{
    word as usize
}

// ---- where it ends

// The form is whole.
fn ended(s: ReadState) -> ReadState
    ensures { outcome_of result ≡ whole }
{
    let field = s.field;
    ReadState {
        depth: s.depth,
        kind: s.kind,
        stage: WHOLE,
        left: s.left,
        paths: s.paths,
        field,
    }
}

// The row is wrong.
fn fault(s: ReadState) -> ReadState
    ensures { outcome_of result ≡ wrong }
{
    let field = s.field;
    ReadState {
        depth: s.depth,
        kind: s.kind,
        stage: WRONG,
        left: s.left,
        paths: s.paths,
        field,
    }
}

// The scope is one too many.
fn too_deep(s: ReadState) -> ReadState
    ensures { outcome_of result ≡ deep }
{
    let field = s.field;
    ReadState {
        depth: s.depth,
        kind: s.kind,
        stage: DEEP,
        left: s.left,
        paths: s.paths,
        field,
    }
}

// ---- a field

// One DECL more.
fn more(decls: usize) -> usize
    ensures { result ≡ more_decls_t decls }
{
    if decls < 2 { decls + 1 } else { decls }
}

// The field with one DECL more: the first gives it its name.
fn with_decl(f: Field, name: usize) -> Field
    ensures { result ≡ declared_t f name }
{
    if f.decls == 0 {
        return Field {
            code: f.code,
            builtin: f.builtin,
            decls: 1,
            name,
        };
    }
    Field {
        code: f.code,
        builtin: f.builtin,
        decls: more(f.decls),
        name: f.name,
    }
}

// What the field wants with one DECL more: the first gives it its operands, those of the rule set of this number.
fn with_operands(f: Field, rules: u8, left: usize, space: usize) -> usize
    ensures { left_of result ≡ declared_left (rules_of rules) f (left_of left) (known space) }
{
    if f.decls == 0 {
        return start(rules, f.code, f.builtin, space);
    }
    left
}

// Whether the field has all its operands.
fn has_operands(s: ReadState, table: &[[u8; 41]; 67]) -> bool
    requires { Right table.now }
    ensures { result ≡ is_complete (wanted_t (current_in s)) }
{
    if WANTING < s.stage {
        return false;
    }
    NOTHING <= after(table, s.left, END)
}

// Whether the field has all that it wants.
fn is_settled(s: ReadState, table: &[[u8; 41]; 67]) -> bool
    requires { Right table.now }
    ensures { result ≡ settled_t (current_in s) }
{
    if s.stage == EXPORTED {
        return true;
    }
    if exports(s.field.code) {
        return false;
    }
    has_operands(s, table)
}

// Whether the field opens no scope.
fn opens_none(code: usize) -> bool
    ensures { result ≡ is_none (rules.opens code) }
{
    opens(code).is_none()
}

// Whether the field opens a scope of that kind.
fn opens_kind(code: usize, kind: usize) -> bool
    ensures { result ≡ same_kind (rules.opens code) kind }
{
    match opens(code) {
        None => false,
        Some(k) => k == kind,
    }
}

// Whether a field may end here without a scope of its own.
fn may_end(s: ReadState, table: &[[u8; 41]; 67]) -> bool
    requires { Right table.now }
    ensures { result ≡ may_end_t (current_in s) }
{
    if EXPORTED < s.stage {
        return true;
    }
    if opens_none(s.field.code) {
        return is_settled(s, table);
    }
    false
}

// Whether a scope of this kind and name may be opened here.
fn may_open(s: ReadState, table: &[[u8; 41]; 67], kind: usize, name: usize) -> bool
    requires { Right table.now }
    ensures { result ≡ may_open_t (current_in s) kind name }
{
    if name != s.field.name {
        return false;
    }
    if opens_kind(s.field.code, kind) {
        return is_settled(s, table);
    }
    false
}

// ---- what a row leads to

// A FIELD, which ends the field before it.
fn on_field(
    s: ReadState,
    table: &[[u8; 41]; 67],
    allowed: &[[u8; 26]; 4],
    code: usize,
    builtin: usize,
) -> ReadState
    requires right { Right table.now }
    requires allows { Allows allowed.now }
    ensures { outcome_of result ≡ on_field_t (position_of s) code builtin }
{
    if may_end(s, table) & (allows(allowed, s.kind, code) & builtin_ok(code, builtin)) {
        return ReadState {
            depth: s.depth,
            kind: s.kind,
            stage: DECLARING,
            left: bare(code),
            paths: 0,
            field: Field {
                code,
                builtin,
                decls: 0,
                name: 0,
            },
        };
    }
    fault(s)
}

// A DECL.
fn on_decl(s: ReadState, rules: u8, space: u8, name: usize) -> ReadState
    ensures { outcome_of result ≡ on_decl_t (rules_of rules) (position_of s) space name }
{
    if s.stage != DECLARING {
        return fault(s);
    }
    let f = s.field;
    if !may_declare(f.code, f.decls, space) {
        return fault(s);
    }
    ReadState {
        depth: s.depth,
        kind: s.kind,
        stage: DECLARING,
        left: with_operands(f, rules, s.left, wide(space)),
        paths: 0,
        field: with_decl(f, name),
    }
}

// An operand after which `left` is wanted, and `paths` PATHs are still to come.
fn wanting(s: ReadState, paths: usize, left: usize) -> ReadState
    ensures { outcome_of result ≡ stays (left_of left) (pathed_t s.depth s.kind s.field paths) }
{
    if left < NOTHING {
        return fault(s);
    }
    let field = s.field;
    if paths == 0 {
        return ReadState {
            depth: s.depth,
            kind: s.kind,
            stage: WANTING,
            left,
            paths,
            field,
        };
    }
    ReadState {
        depth: s.depth,
        kind: s.kind,
        stage: PATHING,
        left,
        paths,
        field,
    }
}

// A REF.
fn on_ref(s: ReadState, table: &[[u8; 41]; 67], space: usize, paths: usize) -> ReadState
    requires { Right table.now }
    ensures { outcome_of result ≡ on_ref_t (position_of s) space paths }
{
    if WANTING < s.stage {
        return fault(s);
    }
    wanting(s, paths, after_ref(table, s.left, space, paths))
}

// An OUTER.
fn on_outer(s: ReadState, table: &[[u8; 41]; 67], space: usize) -> ReadState
    requires { Right table.now }
    ensures { outcome_of result ≡ on_outer_t (position_of s) space }
{
    if WANTING < s.stage {
        return fault(s);
    }
    wanting(s, 0, after_outer(table, s.left, space))
}

// A CASE.
fn on_case(s: ReadState, table: &[[u8; 41]; 67]) -> ReadState
    requires { Right table.now }
    ensures { outcome_of result ≡ on_case_t (position_of s) }
{
    if WANTING < s.stage {
        return fault(s);
    }
    wanting(s, 0, after(table, s.left, CASE))
}

// A PATH of the REF that is at hand.
fn on_path(s: ReadState) -> ReadState
    ensures { outcome_of result ≡ on_path_t (position_of s) }
{
    if s.stage != PATHING {
        return fault(s);
    }
    let paths = s.paths;
    if paths == 0 {
        return fault(s);
    }
    wanting(s, paths - 1, s.left)
}

// An EXPORT.
fn on_export(s: ReadState, table: &[[u8; 41]; 67]) -> ReadState
    requires { Right table.now }
    ensures { outcome_of result ≡ on_export_t (position_of s) }
{
    if has_operands(s, table) & exports(s.field.code) {
        let field = s.field;
        return ReadState {
            depth: s.depth,
            kind: s.kind,
            stage: EXPORTED,
            left: s.left,
            paths: s.paths,
            field,
        };
    }
    fault(s)
}

// On between two fields of a scope.
fn between(s: ReadState, depth: usize, kind: usize) -> ReadState
    ensures { outcome_of result ≡ between_t depth kind }
{
    let field = s.field;
    ReadState {
        depth,
        kind,
        stage: BETWEEN,
        left: s.left,
        paths: s.paths,
        field,
    }
}

// An OPEN: `kinds` holds the kind of each scope around the one at hand, and has no place for one too many.
fn on_open(
    s: ReadState,
    kinds: &mut [usize],
    table: &[[u8; 41]; 67],
    kind: usize,
    name: usize,
) -> ReadState
    requires { Right table.now }
    ensures { (outcome_of result & kinds.new) ≡ on_open_t (position_of s) kinds.old kind name }
{
    if !may_open(s, table, kind, name) {
        return fault(s);
    }
    let depth = s.depth;
    if kinds.len() <= depth {
        return too_deep(s);
    }
    kinds[depth] = s.kind;
    between(s, depth + 1, kind)
}

// The kind of the scope that has this many around it, 0 where none was noted.
fn kind_at(kinds: &[usize], depth: usize) -> usize
    ensures { result ≡ get_or kinds.now depth 0 }
{
    if depth < kinds.len() { kinds[depth] } else { 0 }
}

// A CLOSE, which ends the field before it too.
fn on_close(s: ReadState, kinds: &[usize], table: &[[u8; 41]; 67]) -> ReadState
    requires { Right table.now }
    ensures { outcome_of result ≡ on_close_t (position_of s) kinds.now }
{
    if !may_end(s, table) {
        return fault(s);
    }
    let depth = s.depth;
    if depth <= 1 {
        return ended(s);
    }
    between(s, depth - 1, kind_at(kinds, depth - 1))
}

// A row of a form, by its parts; names reach to `top`.
pub fn step(
    s: ReadState,
    kinds: &mut [usize],
    table: &[[u8; 41]; 67],
    allowed: &[[u8; 26]; 4],
    p: Parts,
    top: u32,
    rules: u8,
) -> ReadState
    requires right { Right table.now }
    requires allows { Allows allowed.now }
    ensures { (outcome_of result & kinds.new) ≡ read_step_t (rules_of rules) (position_of s) kinds.old (row_of top p) }
{
    if !is_sound(p, top) {
        return fault(s);
    }
    let code = p.code;
    match code {
        1 => on_field(s, table, allowed, wide(p.b), wider(p.e)),
        2 => on_decl(s, rules, p.b, wider(p.x)),
        3 => on_ref(s, table, wide(p.b), wider(p.y)),
        4 => on_path(s),
        5 => on_outer(s, table, wide(p.b)),
        6 => on_case(s, table),
        7 => on_open(s, kinds, table, wide(p.b), wider(p.x)),
        8 => on_close(s, kinds, table),
        9 => on_export(s, table),
        _ => fault(s),
    }
}

// ---- the first row

// In the root, before its first field.
pub fn root() -> ReadState
    ensures { outcome_of result ≡ on in_root }
{
    ReadState {
        depth: 1,
        kind: 0,
        stage: BETWEEN,
        left: NOTHING,
        paths: 0,
        field: Field {
            code: 0,
            builtin: 0,
            decls: 0,
            name: 0,
        },
    }
}
