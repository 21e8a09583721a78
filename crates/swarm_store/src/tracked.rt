// Rows under change: what they were when the changes under way began can be had back without memory.
ghost use Rattle.std.specs.Prelude.{ℕ, false, true, IfNone, IfSome, ◌⊎◌, ◌*◌, ◌^◌, if◌then◌else◌, ◌-◌, ◌≡◌};
ghost use Rattle.std.specs.Prelude.{◌+◌, ◌<◌, ◌≤◌, ◌++◌, ◌∷◌, Bool, drop, flat_map, take, None, Some, [], OnErr};
ghost use Rattle.std.specs.Prelude.{OnOk, OnSome, filter, length, map, slice_get, ◌==◌};
ghost use Rattle.std.specs.Bool.{Decides};
ghost use Rattle.std.specs.Option.{option_copied, option_to_list};
ghost use Rattle.std.specs.Vec.{vec_capacity, vec_len};
ghost use Rattle.swarm_index.specs.Keys.{has_key, value_of};
ghost use Rattle.swarm_model.specs.Changed.{event, events_of, verb_of};
ghost use Rattle.swarm_objects.specs.Rows.{RisesFrom, drop_row, has_row, is_some_and, put_row, row_above, row_at};
ghost use Rattle.swarm_objects.specs.Rows.{rows_before, rows_named, with_row};
ghost use Rattle.swarm_store.specs.Inside.Tracking.{DecidesRows, IsImage, IsTracked, before_id, count_back, image_events, put_back, remembered, restored};
ghost use Rattle.swarm_store.specs.Inside.Tracking.{GoBackAsBefore};

use std::alloc::Global;
use std::marker::Model;
use swarm_index::{IndexKey, Indexed, Row};
use swarm_objects::{Event, Id, Kind, NoMemory, Same, Verb, Version};

// What the row with this id was before it changed, if there was one.
#[derive(Drop)]
pub(crate) struct Before<R> {
    pub(crate) id: Id,
    pub(crate) row: Option<R>,
}

// Rows, and what each changed one was, by rising id. There is room in the index to put all of them back.
#[derive(Drop)]
pub(crate) struct Tracked<R: Row + Drop> {
    rows: Indexed<R>,
    before: Vec<Before<R>>,
    // How many rows there are.
    count: usize,
}

impl<R: Row + Drop> Model for Tracked<R> {
    ghost use Rattle.std.specs.Prelude.{length};
    ghost use Rattle.swarm_store.specs.Inside.Span.{Track};
    ghost use Rattle.swarm_store.specs.Inside.Tracking.{IsCounted, restored};

    ghost Value = { Track R };

    ghost view = { λ t. record {
      start = restored R.id_of t.before.items t.rows.rows;
      rows = t.rows.rows;
      changed = length t.before.items;
    } };

    ghost invariant = { λ t. IsCounted R.id_of t.before.items t.rows t.count };
}

impl<R: Row + Drop> Tracked<R> {
    pub(crate) fn new(alloc: Global) -> Tracked<R>
        ensures start { result.start ≡ [] }
        ensures rows { result.rows ≡ [] }
        ensures changed { result.changed ≡ 0 }
    {
        Tracked {
            rows: Indexed::new(alloc),
            before: Vec::new(alloc),
            count: 0,
        }
    }

    // How many rows changed; where none did, all are what they were.
    pub(crate) fn changed(&self) -> usize
        ensures count { result ≡ self.now.changed }
        ensures none { result ≡ 0 → self.now.start ≡ self.now.rows }
    {
        self.before.len()
    }

    // How many rows there are.
    pub(crate) fn len(&self) -> usize
        ensures { result ≡ length self.now.rows }
    {
        self.count
    }

    // That there are so few rows; it is called for its clause.
    pub(crate) fn are_few(&self)
        ensures { length self.now.rows < 2 ^ 64 }
    {
        self.len();
    }

    // That they stand by rising id; it is called for its clause.
    pub(crate) fn rise(&self)
        ensures { RisesFrom R.id_of 0 self.now.rows }
    {
        let _ = &self.rows;
    }

    pub(crate) fn get(&self, id: Id) -> Option<&R>
        ensures { option_copied result ≡ row_at R.id_of id self.now.rows }
    {
        self.rows.get(id)
    }

    pub(crate) fn next(&self, after: Id) -> Option<&R>
        ensures { option_copied result ≡ row_above R.id_of after self.now.rows }
    {
        self.rows.next(after)
    }

    pub(crate) fn next_by_key(&self, which: u32, key: &IndexKey<'_>, after: Id) -> Option<&R>
        requires { which < R.KEYS }
        ensures { option_copied result
            ≡ row_above R.id_of after (filter (has_key R.key_of which (value_of key.now)) self.now.rows) }
    {
        self.rows.next_by_key(which, key, after)
    }

    pub(crate) fn ids_by_key(&self, which: u32, key: &IndexKey<'_>) -> Option<&[Id]>
        requires { which < R.KEYS }
        ensures { let has = has_key R.key_of which (value_of key.now) in
            IfSome result (λ ids. filter has (rows_named R.id_of ids.now self.now.rows) ≡ filter has self.now.rows) }
    {
        self.rows.ids_by_key(which, key)
    }

    // Puts the row, in the place of the one with its id if that is there.
    pub(crate) fn put(&mut self, row: R) -> Result<(), NoMemory>
        requires { 0 < R.id_of row }
        ensures ok { OnOk result (self.new.rows ≡ with_row R.id_of row self.old.rows) }
        ensures err { OnErr result (self.new.rows ≡ self.old.rows) }
        ensures start { self.new.start ≡ self.old.start }
        ensures changed { self.new.changed ≤ self.old.changed + 1 }
    {
        put_counted(&mut self.rows, &mut self.before, &mut self.count, row)
    }

    // The row with this id goes.
    pub(crate) fn remove(&mut self, id: Id) -> Result<(), NoMemory>
        requires { 0 < id }
        ensures ok { OnOk result (self.new.rows ≡ drop_row R.id_of id self.old.rows) }
        ensures err { OnErr result (self.new.rows ≡ self.old.rows) }
        ensures start { self.new.start ≡ self.old.start }
        ensures changed { self.new.changed ≤ self.old.changed + 1 }
    {
        remove_counted(&mut self.rows, &mut self.before, &mut self.count, id)
    }

    // The rows are again what they were. It takes no memory.
    pub(crate) fn take_back(&mut self)
        ensures rows { self.new.rows ≡ self.old.start }
        ensures start { self.new.start ≡ self.old.start }
        ensures changed { self.new.changed ≡ 0 }
    {
        while self.take_back_last().is_some() {}
    }

    // The last one of the rows that changed is again what it was; what it was meanwhile. It takes no memory.
    pub(crate) fn take_back_last(&mut self) -> Option<Before<R>>
        ensures start { self.new.start ≡ self.old.start }
        ensures row { IfSome result (λ b. b.row ≡ row_at R.id_of b.id self.old.rows) }
        ensures others { IfSome result (λ b.
            drop_row R.id_of b.id self.new.rows ≡ drop_row R.id_of b.id self.old.rows) }
        ensures fewer { OnSome result (self.old.changed ≡ self.new.changed + 1) }
        ensures same { IfNone result (self.new.rows ≡ self.old.rows) }
        ensures none { IfNone result (self.new.changed ≡ 0) }
        ensures back { IfNone result (self.new.rows ≡ self.new.start) }
    {
        put_last_back(&mut self.rows, &mut self.before, &mut self.count)
    }

    // The changes stay.
    pub(crate) fn settle(&mut self)
        ensures rows { self.new.rows ≡ self.old.rows }
        ensures start { self.new.start ≡ self.old.rows }
        ensures changed { self.new.changed ≡ 0 }
    {
        self.before.clear();
    }
}

// Makes a place to remember one change more, and room in the index for it and for putting back all rows.
fn make_room<R: Row + Drop>(
    rows: &mut Indexed<R>,
    before: &mut Vec<Before<R>>,
) -> Result<(), NoMemory>
    ensures rows { rows.new.rows ≡ rows.old.rows }
    ensures before { before.new.items ≡ before.old.items }
    ensures kept { rows.old.room ≤ rows.new.room }
    ensures room { OnOk result (length before.old.items + 2 ≤ rows.new.room) }
    ensures spare { OnOk result (length before.old.items < vec_capacity before.new) }
{
    let Ok(()) = before.reserve(1) else {
        return Err(NoMemory);
    };
    let Some(room) = (before.len() as u64).checked_add(2) else {
        return Err(NoMemory);
    };
    rows.reserve(room)
}

// Puts a new row where there is room for it.
fn insert_row<R: Row + Drop>(rows: &mut Indexed<R>, row: R)
    requires room { 0 < rows.old.room }
    requires new { row_at R.id_of (R.id_of row) rows.old.rows ≡ None }
    ensures rows { rows.new.rows ≡ with_row R.id_of row rows.old.rows }
    ensures room { rows.old.room ≤ rows.new.room + 1 }
{
    match rows.insert(row) {
        Ok(()) => {}
        Err(_) => unreachable!(),
    }
}

// Puts a row in the place of the one with its id, where there is room for it.
fn replace_row<R: Row + Drop>(rows: &mut Indexed<R>, row: R) -> R
    requires room { 0 < rows.old.room }
    requires there { has_row R.id_of (R.id_of row) rows.old.rows ≡ true }
    ensures value { Some result ≡ row_at R.id_of (R.id_of row) rows.old.rows }
    ensures rows { rows.new.rows ≡ put_row R.id_of row rows.old.rows }
    ensures room { rows.old.room ≤ rows.new.room + 1 }
{
    match rows.replace(row) {
        Ok(old) => old,
        Err(_) => unreachable!(),
    }
}

fn has_id<R: Row + Drop>(rows: &Indexed<R>, id: Id) -> bool
    ensures { result ≡ has_row R.id_of id rows.now.rows }
{
    match rows.get(id) {
        Some(_) => true,
        None => false,
    }
}

// Puts a row, in the place of the one with its id if that is there, where there is room for it; what was there.
fn place<R: Row + Drop>(rows: &mut Indexed<R>, row: R) -> Option<R>
    requires room { 0 < rows.old.room }
    requires rising { RisesFrom R.id_of 0 rows.old.rows }
    ensures value { result ≡ row_at R.id_of (R.id_of row) rows.old.rows }
    ensures rows { rows.new.rows ≡ with_row R.id_of row rows.old.rows }
    ensures room { rows.old.room ≤ rows.new.room + 1 }
{
    if has_id(rows, row.id()) {
        return Some(replace_row(rows, row));
    }
    insert_row(rows, row);
    None
}

// How many of the ids are less.
fn lesser_ids<R>(before: &[Before<R>], id: Id) -> usize
    ensures { result ≡ rows_before before_id id before.now }
{
    let mut count = 0;
    for earlier in before {
        if id <= earlier.id {
            return count;
        }
        count += 1;
    }
    count
}

fn is_id_at<R>(before: &[Before<R>], at: usize, id: Id) -> bool
    ensures { result ≡ is_some_and (λ b. before_id b == id) (slice_get before.now at) }
{
    match before.get(at) {
        Some(image) => image.id == id,
        None => false,
    }
}

// Puts the item where there is room for it.
fn insert_at<T: Drop>(items: &mut Vec<T>, at: usize, item: T)
    requires at { at ≤ length items.old.items }
    requires spare { vec_len items.old < vec_capacity items.old }
    ensures items { items.new.items ≡ take at items.old.items ++ item ∷ drop at items.old.items }
    ensures kept { vec_capacity items.old ≤ vec_capacity items.new }
{
    match items.insert(at, item) {
        Ok(()) => {}
        Err(_) => unreachable!(),
    }
}

// Remembers what a row was, unless it is known.
fn remember<R: Drop>(before: &mut Vec<Before<R>>, image: Before<R>)
    requires spare { vec_len before.old < vec_capacity before.old }
    requires order { RisesFrom before_id 0 before.old.items }
    ensures items { before.new.items ≡ remembered image before.old.items }
    ensures kept { vec_capacity before.old ≤ vec_capacity before.new }
{
    let at = lesser_ids(before.as_slice(), image.id);
    if is_id_at(before.as_slice(), at, image.id) {
        return;
    }
    insert_at(before, at, image);
}

fn put_tracked<R: Row + Drop>(
    rows: &mut Indexed<R>,
    before: &mut Vec<Before<R>>,
    row: R,
) -> Result<(), NoMemory>
    requires id { 0 < R.id_of row }
    requires tracked { IsTracked R.id_of before.old.items rows.old }
    ensures ok { OnOk result (rows.new.rows ≡ with_row R.id_of row rows.old.rows) }
    ensures err { OnErr result (rows.new.rows ≡ rows.old.rows) }
    ensures kept { GoBackAsBefore R.id_of before.old.items rows.old before.new.items rows.new }
    ensures changed { length before.new.items ≤ length before.old.items + 1 }
{
    let Ok(()) = make_room(rows, before) else {
        return Err(NoMemory);
    };
    let id = row.id();
    let old = place(rows, row);
    remember(before, Before { id, row: old });
    Ok(())
}

fn remove_tracked<R: Row + Drop>(
    rows: &mut Indexed<R>,
    before: &mut Vec<Before<R>>,
    id: Id,
) -> Result<(), NoMemory>
    requires id { 0 < id }
    requires tracked { IsTracked R.id_of before.old.items rows.old }
    ensures ok { OnOk result (rows.new.rows ≡ drop_row R.id_of id rows.old.rows) }
    ensures err { OnErr result (rows.new.rows ≡ rows.old.rows) }
    ensures kept { GoBackAsBefore R.id_of before.old.items rows.old before.new.items rows.new }
    ensures changed { length before.new.items ≤ length before.old.items + 1 }
{
    let Ok(()) = make_room(rows, before) else {
        return Err(NoMemory);
    };
    let old = rows.remove(id);
    remember(before, Before { id, row: old });
    Ok(())
}

// Whether there can be one row and one change more, and the rows can still be counted while all are put back: each that
// is may be one more.
fn can_count(count: usize, changed: usize) -> bool
    ensures { result ≡ true → count + changed + 2 < 2 ^ 64 }
{
    match count.checked_add(changed) {
        Some(both) => both < usize::MAX - 2,
        None => false,
    }
}

// How many rows there are with one of this id.
fn count_with<R: Row + Drop>(rows: &Indexed<R>, count: usize, id: Id) -> usize
    requires { count + 1 < 2 ^ 64 }
    ensures count { result ≡ (if has_row R.id_of id rows.now.rows then count else count + 1) }
    ensures most { result ≤ count + 1 }
{
    if rows.get(id).is_some() {
        return count;
    }
    count + 1
}

// How many rows there are without the one of this id.
fn count_without<R: Row + Drop>(rows: &Indexed<R>, count: usize, id: Id) -> usize
    ensures count { result ≡ (if has_row R.id_of id rows.now.rows then count - 1 else count) }
    ensures most { result ≤ count }
{
    if rows.get(id).is_some() {
        return count.saturating_sub(1);
    }
    count
}

fn put_counted<R: Row + Drop>(
    rows: &mut Indexed<R>,
    before: &mut Vec<Before<R>>,
    count: &mut usize,
    row: R,
) -> Result<(), NoMemory>
    requires id { 0 < R.id_of row }
    requires tracked { IsTracked R.id_of before.old.items rows.old }
    requires counted { count.old ≡ length rows.old.rows }
    requires few { count.old + length before.old.items < 2 ^ 64 }
    ensures ok { OnOk result (rows.new.rows ≡ with_row R.id_of row rows.old.rows) }
    ensures err { OnErr result (rows.new.rows ≡ rows.old.rows) }
    ensures kept { GoBackAsBefore R.id_of before.old.items rows.old before.new.items rows.new }
    ensures counted { count.new ≡ length rows.new.rows }
    ensures few { count.new + length before.new.items < 2 ^ 64 }
    ensures changed { length before.new.items ≤ length before.old.items + 1 }
{
    if !can_count(*count, before.len()) {
        return Err(NoMemory);
    }
    let next = count_with(rows, *count, row.id());
    let Ok(()) = put_tracked(rows, before, row) else {
        return Err(NoMemory);
    };
    *count = next;
    Ok(())
}

fn remove_counted<R: Row + Drop>(
    rows: &mut Indexed<R>,
    before: &mut Vec<Before<R>>,
    count: &mut usize,
    id: Id,
) -> Result<(), NoMemory>
    requires id { 0 < id }
    requires tracked { IsTracked R.id_of before.old.items rows.old }
    requires counted { count.old ≡ length rows.old.rows }
    requires few { count.old + length before.old.items < 2 ^ 64 }
    ensures ok { OnOk result (rows.new.rows ≡ drop_row R.id_of id rows.old.rows) }
    ensures err { OnErr result (rows.new.rows ≡ rows.old.rows) }
    ensures kept { GoBackAsBefore R.id_of before.old.items rows.old before.new.items rows.new }
    ensures counted { count.new ≡ length rows.new.rows }
    ensures few { count.new + length before.new.items < 2 ^ 64 }
    ensures changed { length before.new.items ≤ length before.old.items + 1 }
{
    if !can_count(*count, before.len()) {
        return Err(NoMemory);
    }
    let next = count_without(rows, *count, id);
    let Ok(()) = remove_tracked(rows, before, id) else {
        return Err(NoMemory);
    };
    *count = next;
    Ok(())
}

// The row is again what it was; what was there.
fn put_back<R: Row + Drop>(rows: &mut Indexed<R>, image: Before<R>) -> Option<R>
    requires room { 0 < rows.old.room }
    requires image { IsImage R.id_of image.id image.row }
    ensures value { result ≡ row_at R.id_of image.id rows.old.rows }
    ensures rows { rows.new.rows ≡ put_back R.id_of image rows.old.rows }
    ensures room { rows.old.room ≤ rows.new.room + 1 }
{
    let Before { id, row } = image;
    let there = rows.remove(id);
    match row {
        Some(row) => insert_row(rows, row),
        None => {}
    }
    there
}

// How many rows there are with one that is put back.
fn count_back(count: usize, is_there: bool, was_there: bool) -> usize
    requires { count + 1 < 2 ^ 64 }
    ensures count { result ≡ count_back is_there was_there count }
    ensures most { result ≤ count + 1 }
{
    let left = if is_there {
        count.saturating_sub(1)
    } else {
        count
    };
    if was_there { left + 1 } else { left }
}

// Puts back the last of the rows that changed; what was there.
fn put_last_back<R: Row + Drop>(
    rows: &mut Indexed<R>,
    before: &mut Vec<Before<R>>,
    count: &mut usize,
) -> Option<Before<R>>
    requires tracked { IsTracked R.id_of before.old.items rows.old }
    requires counted { count.old ≡ length rows.old.rows }
    requires few { count.old + length before.old.items < 2 ^ 64 }
    ensures kept { GoBackAsBefore R.id_of before.old.items rows.old before.new.items rows.new }
    ensures counted { count.new ≡ length rows.new.rows }
    ensures few { count.new + length before.new.items < 2 ^ 64 }
    ensures row { IfSome result (λ b. b.row ≡ row_at R.id_of b.id rows.old.rows) }
    ensures others { IfSome result (λ b. drop_row R.id_of b.id rows.new.rows ≡ drop_row R.id_of b.id rows.old.rows) }
    ensures fewer { OnSome result (length before.old.items ≡ length before.new.items + 1) }
    ensures same { IfNone result (rows.new.rows ≡ rows.old.rows) }
    ensures none { IfNone result (before.new.items ≡ []) }
{
    let Some(image) = before.pop() else {
        return None;
    };
    let id = image.id;
    let was_there = image.row.is_some();
    let row = put_back(rows, image);
    *count = count_back(*count, row.is_some(), was_there);
    Some(Before { id, row })
}

// What became of a row.
fn verb_of<R: Same>(old: &Option<R>, new: Option<&R>) -> Option<Verb>
    ensures { (same : R → R → Bool)
        → ((x y : R) → old.now ≡ Some x → option_copied new.entry ≡ Some y → Decides (same x y) (x ≡ y))
        → option_to_list result ≡ verb_of same old.now (option_copied new.entry) }
{
    match (old, new) {
        (None, None) => None,
        (None, Some(_)) => Some(Verb::Created),
        (Some(_), None) => Some(Verb::Deleted),
        (Some(old), Some(new)) if old.same(new) => None,
        (Some(_), Some(_)) => Some(Verb::Updated),
    }
}

// Puts the event of what became of the row, if anything did, where there is a place for it.
fn put_event(events: &mut Vec<Event>, version: Version, kind: Kind, id: Id, verb: Option<Verb>)
    requires { length events.old.items < vec_capacity events.old }
    ensures items { events.new.items ≡ events.old.items ++ map (event version kind id) (option_to_list verb) }
    ensures most { length events.new.items ≤ length events.old.items + 1 }
    ensures places { vec_capacity events.new ≡ vec_capacity events.old }
{
    if let Some(verb) = verb {
        events.push_reserved(Event {
            entry: version,
            verb,
            kind,
            id,
        });
    }
}

impl<R: Row + Same + Drop> Tracked<R> {
    // Puts what became of the rows since the changes under way began, where there are places for it.
    pub(crate) fn put_events(&self, version: Version, kind: Kind, events: &mut Vec<Event>)
        requires { length events.old.items + self.now.changed ≤ vec_capacity events.old }
        ensures items { (same : R → R → Bool) → DecidesRows R.id_of same →
            events.new.items ≡ events.old.items ++ events_of version kind R.id_of same self.now.start self.now.rows }
        ensures most { length events.new.items ≤ length events.old.items + self.now.changed }
        ensures places { vec_capacity events.new ≡ vec_capacity events.old }
    {
        put_all_events(&self.rows, self.before.as_slice(), version, kind, events)
    }
}

fn put_all_events<R: Row + Same + Drop>(
    rows: &Indexed<R>,
    before: &[Before<R>],
    version: Version,
    kind: Kind,
    events: &mut Vec<Event>,
)
    requires tracked { IsTracked R.id_of before.now rows.now }
    requires places { length events.old.items + length before.now ≤ vec_capacity events.old }
    ensures items { (same : R → R → Bool) → DecidesRows R.id_of same →
        events.new.items
        ≡ events.old.items ++ flat_map (image_events version kind R.id_of same rows.now.rows) before.now }
    ensures most { length events.new.items ≤ length events.old.items + length before.now }
    ensures places { vec_capacity events.new ≡ vec_capacity events.old }
{
    for image in before {
        let verb = verb_of(&image.row, rows.get(image.id));
        put_event(events, version, kind, image.id, verb);
    }
}
