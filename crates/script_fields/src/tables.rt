// The tables of fields: their order, what may repeat, and what is left out.
ghost use Rattle.std.specs.Prelude.{◌≡◌, ◌&&◌, ◌||◌, not, nat_eq, nat_lt, IfOk};
ghost use Rattle.std.specs.Str.{bytes_eq};
ghost use Rattle.std.specs.List.{list_all, list_any};
ghost use Rattle.script_fields.specs.Free.{is_free};
ghost use Rattle.script_grammar.specs.Tables.{number_row, row, number_belongs, belongs, may_repeat, same_key, clashes, fits, number_default, has_defaults, is_default, bytes_lt, key_rises, comes_before, follows, may_stand};

use crate::spelling::is_spelled;
use script_grammar::{Field, Form, NumberField, Table};
use std::alloc::Global;
use swarm_objects::{
    Mode, Name, NoMemory, NodeDraft, RestartPolicy, Settings, UpdateConfig, Workload,
};

const fn number_row(which: NumberField) -> u8
    ensures { result ≡ number_row which }
{
    match which {
        NumberField::Prepare => 2,
        NumberField::Start => 3,
        NumberField::Stop => 4,
        NumberField::Cpu => 8,
        NumberField::Mem => 9,
        NumberField::MaxReplicas => 18,
        NumberField::RestartDelay => 21,
        NumberField::RestartMax => 22,
        NumberField::RestartWindow => 23,
        NumberField::Parallelism => 26,
        NumberField::UpdateDelay => 27,
        NumberField::Monitor => 28,
        NumberField::Ratio => 30,
        NumberField::Heartbeat => 32,
        NumberField::Orphan => 33,
        NumberField::History => 34,
    }
}

/// The place of the field's row. All tables share one order of rows.
pub const fn row(field: &Field) -> u8
    ensures { result ≡ row field.now }
{
    match field {
        Field::Mode(_) => 0,
        Field::End(_) => 1,
        Field::Number(which, _) => number_row(*which),
        Field::Label(_, _) => 5,
        Field::Role(_) => 6,
        Field::Availability(_) => 7,
        Field::Os(_) => 11,
        Field::Arch(_) => 12,
        Field::Engine(_, _) => 13,
        Field::Remote => 14,
        Field::Constraint(_) => 15,
        Field::Spread(_) => 16,
        Field::Platform(_) => 17,
        Field::Net(_) => 19,
        Field::Restart(_) => 20,
        Field::Port(_) => 24,
        Field::Host(_) => 25,
        Field::Failure(_) => 29,
        Field::Order(_) => 31,
    }
}

fn number_belongs(table: Table, which: NumberField) -> bool
    ensures { result ≡ number_belongs table which }
{
    match table {
        Table::NewNode | Table::Session => number_row(which) == 8 || number_row(which) == 9,
        Table::OldNode => false,
        Table::Service => number_row(which) < 32,
        Table::Cluster => 31 < number_row(which),
    }
}

/// Whether the table has the field's row.
pub fn belongs(table: Table, field: &Field) -> bool
    ensures { result ≡ belongs table field.now }
{
    match (table, field) {
        (_, Field::Number(which, _)) => number_belongs(table, *which),
        (Table::NewNode, Field::Label(_, _)) => true,
        (Table::NewNode, Field::Role(_)) => true,
        (Table::NewNode, Field::Availability(_)) => true,
        (Table::NewNode, Field::Os(_)) => true,
        (Table::NewNode, Field::Arch(_)) => true,
        (Table::NewNode, Field::Engine(_, _)) => true,
        (Table::NewNode, Field::Remote) => true,
        (Table::OldNode, Field::Label(_, _)) => true,
        (Table::OldNode, Field::Role(_)) => true,
        (Table::OldNode, Field::Availability(_)) => true,
        (Table::Service, Field::Mode(_)) => true,
        (Table::Service, Field::End(_)) => true,
        (Table::Service, Field::Constraint(_)) => true,
        (Table::Service, Field::Spread(_)) => true,
        (Table::Service, Field::Platform(_)) => true,
        (Table::Service, Field::Net(_)) => true,
        (Table::Service, Field::Restart(_)) => true,
        (Table::Service, Field::Port(_)) => true,
        (Table::Service, Field::Host(_)) => true,
        (Table::Service, Field::Failure(_)) => true,
        (Table::Service, Field::Order(_)) => true,
        _ => false,
    }
}

/// Whether a line may have several fields of this row.
pub const fn may_repeat(field: &Field) -> bool
    ensures { result ≡ may_repeat field.now }
{
    match field {
        Field::Label(_, _) => true,
        Field::Engine(_, _) => true,
        Field::Constraint(_) => true,
        Field::Spread(_) => true,
        Field::Platform(_) => true,
        Field::Net(_) => true,
        Field::Port(_) => true,
        Field::Host(_) => true,
        _ => false,
    }
}

fn is_same_name(name: &Name, other: &Name) -> bool
    ensures { result ≡ bytes_eq name.now other.now }
{
    name.as_str().as_bytes() == other.as_str().as_bytes()
}

fn same_key(field: &Field, other: &Field) -> bool
    ensures { result ≡ same_key field.now other.now }
{
    match (field, other) {
        (Field::Label(key, _), Field::Label(other, _)) => is_same_name(key, other),
        (Field::Engine(key, _), Field::Engine(other, _)) => is_same_name(key, other),
        _ => false,
    }
}

fn is_same_row(field: &Field, other: &Field) -> bool
    ensures { result ≡ nat_eq (row field.now) (row other.now) }
{
    row(field) == row(other)
}

fn repeats(field: &Field, other: &Field) -> bool
    ensures { result ≡ not (may_repeat field.now) || same_key field.now other.now }
{
    !may_repeat(field) || same_key(field, other)
}

/// Whether two fields of one line can't be: one row twice that may not repeat, or one label key twice.
pub fn clashes(field: &Field, other: &Field) -> bool
    ensures { result ≡ clashes field.now other.now }
{
    is_same_row(field, other) && repeats(field, other)
}

fn is_met(fields: &[Field], field: &Field) -> bool
    ensures { result ≡ list_any (λ g. clashes g field.now) fields.now }
{
    fields.iter().any(|earlier| clashes(earlier, field))
}

// Whether the field may be named again and has no key, so that it clashes with no field.
const fn is_free(field: &Field) -> bool
    ensures { result ≡ is_free field.now }
{
    match field {
        Field::Constraint(_) => true,
        Field::Spread(_) => true,
        Field::Platform(_) => true,
        Field::Net(_) => true,
        Field::Port(_) => true,
        Field::Host(_) => true,
        _ => false,
    }
}

/// Whether the field, read after these fields, may stand there in a script.
#[tactic(auto, using(crate::proofs::Free::fits_free))]
pub fn fits(fields: &[Field], field: &Field) -> bool
    ensures { result ≡ fits fields.now field.now }
{
    is_free(field) || !is_met(fields, field)
}

/// The number that holds where the field isn't named.
pub const fn number_default(table: Table, which: NumberField) -> u64
    ensures { result ≡ number_default table which }
{
    match (table, which) {
        (Table::NewNode, NumberField::Cpu) => NodeDraft::USUAL_CPU,
        (Table::NewNode, NumberField::Mem) => NodeDraft::USUAL_MEM,
        (_, NumberField::Prepare) => Workload::usual().prepare,
        (_, NumberField::Start) => Workload::usual().start,
        (_, NumberField::Stop) => Workload::usual().stop,
        // nothing is reserved, and a node may have any number of tasks
        (_, NumberField::Cpu | NumberField::Mem | NumberField::MaxReplicas) => 0,
        (_, NumberField::RestartDelay) => RestartPolicy::usual().delay,
        (_, NumberField::RestartMax) => RestartPolicy::usual().max_attempts,
        (_, NumberField::RestartWindow) => RestartPolicy::usual().window,
        (_, NumberField::Parallelism) => UpdateConfig::usual().parallelism,
        (_, NumberField::UpdateDelay) => UpdateConfig::usual().delay,
        (_, NumberField::Monitor) => UpdateConfig::usual().monitor,
        (_, NumberField::Ratio) => UpdateConfig::usual().ratio,
        (_, NumberField::Heartbeat) => Settings::usual().heartbeat,
        (_, NumberField::Orphan) => Settings::usual().orphan,
        (_, NumberField::History) => Settings::usual().history,
    }
}

// What a session isn't told is left as it is.
const fn has_defaults(table: Table) -> bool
    ensures { result ≡ has_defaults table }
{
    match table {
        Table::Session => false,
        _ => true,
    }
}

fn is_name_text(name: &Name, text: &str) -> bool
    ensures { result ≡ bytes_eq name.now text.now }
{
    name.as_str().as_bytes() == text.as_bytes()
}

// Whether the number is the one that holds without it.
fn is_usual(table: Table, which: NumberField, number: u64) -> bool
    ensures { result ≡ (has_defaults table && nat_eq number (number_default table which)) }
{
    has_defaults(table) && number == number_default(table, which)
}

/// Whether the field says what holds without it.
pub fn is_default(table: Table, field: &Field) -> bool
    ensures { result ≡ is_default table field.now }
{
    match field {
        Field::Number(which, number) => is_usual(table, *which, *number),
        Field::Mode(mode) => *mode == Mode::usual(),
        Field::End(end) => *end == Workload::usual().end,
        Field::Role(role) => *role == NodeDraft::USUAL_ROLE,
        Field::Availability(availability) => *availability == NodeDraft::USUAL_AVAILABILITY,
        Field::Os(name) => is_name_text(name, NodeDraft::USUAL_OS),
        Field::Arch(name) => is_name_text(name, NodeDraft::USUAL_ARCH),
        Field::Restart(condition) => *condition == RestartPolicy::usual().condition,
        Field::Failure(action) => *action == UpdateConfig::usual().action,
        Field::Order(order) => *order == UpdateConfig::usual().order,
        _ => false,
    }
}

fn bytes_lt(left: &[u8], right: &[u8]) -> bool
    ensures { result ≡ bytes_lt left.now right.now }
{
    match right {
        [] => false,
        [y, ys @ ..] => match left {
            [] => true,
            [x, xs @ ..] => {
                if *x < *y {
                    return true;
                }
                if *x != *y {
                    return false;
                }
                bytes_lt(xs, ys)
            }
        },
    }
}

// Whether the first name is less, by bytes.
pub fn comes_first(left: &Name, right: &Name) -> bool
    ensures { result ≡ bytes_lt left.now right.now }
{
    bytes_lt(left.as_str().as_bytes(), right.as_str().as_bytes())
}

fn key_rises(field: &Field, other: &Field) -> bool
    ensures { result ≡ key_rises field.now other.now }
{
    match (field, other) {
        (Field::Label(key, _), Field::Label(other, _)) => comes_first(key, other),
        (Field::Engine(key, _), Field::Engine(other, _)) => comes_first(key, other),
        _ => true,
    }
}

fn rises(field: &Field, other: &Field) -> bool
    ensures { result ≡ (may_repeat field.now && key_rises field.now other.now) }
{
    may_repeat(field) && key_rises(field, other)
}

/// Whether the first field may stand before the second in a journal.
pub fn comes_before(field: &Field, other: &Field) -> bool
    ensures { result ≡ comes_before field.now other.now }
{
    let (here, there) = (row(field), row(other));
    here < there || here == there && rises(field, other)
}

fn comes_last(fields: &[Field], field: &Field) -> bool
    ensures { result ≡ list_all (λ g. comes_before g field.now) fields.now }
{
    fields.iter().all(|earlier| comes_before(earlier, field))
}

/// Whether the field, read after these fields, may stand there in a journal: it is no default, and each of them
/// comes before it.
pub fn follows(table: Table, fields: &[Field], field: &Field) -> bool
    ensures { result ≡ follows table fields.now field.now }
{
    !is_default(table, field) && comes_last(fields, field)
}

/// Whether the field, read from this word after these fields, may stand there in a line of this form.
pub fn may_stand(
    alloc: Global,
    form: Form,
    table: Table,
    fields: &[Field],
    field: &Field,
    word: &[u8],
) -> Result<bool, NoMemory>
    ensures { IfOk result (λ yes. yes ≡ may_stand form table fields.now field.now word.now) }
{
    match form {
        Form::Script => Ok(belongs(table, field) && fits(fields, field)),
        Form::Journal => {
            let spelled = is_spelled(alloc, field, word)?;
            Ok(belongs(table, field) && (spelled && follows(table, fields, field)))
        }
    }
}
