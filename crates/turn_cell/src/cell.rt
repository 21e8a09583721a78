//! The cell: a value, which callers use in turns.
ghost use Rattle.std.specs.Prelude.{◌≡◌, ◌<◌};

use crate::pass::Pass;
use crate::plays::{Another, Count, Draw, Gather, Leave, Look, Note};
use crate::rule::ByTurns;
use crate::view::View;
use crate::work::{Counted, TurnWork};
use atomic_table::{Seat, Table};
use crossbeam_utils::sync::EventCount;
use std::alloc::Global;
use std::array::from_fn;
use std::hint::spin_loop;
use std::sync::Wait;
use swarm_objects::{List, NoMemory};

// The words of the table, and its slot.
const TICKET: usize = 0;

const SERVING: usize = 1;

const COUNT: usize = 2;

const VALUE: usize = 0;

// How many places there are to rest at.
const PLACES: usize = 8;

// So often a caller looks before it rests: most turns take a few microseconds, less than to fall asleep and be woken.
const LOOKS: u32 = 64;

/// One value, which callers with a pass use in turns. Each turn begins with the value that the last one left, so all
/// callers see one history.
#[derive(Drop)]
pub struct TurnCell<V: Counted> {
    table: Table<Option<V>, View<V::Item>, u64, ByTurns<V>, Global>,
    // who waits for a turn rests at its ticket's place, so the end of a turn wakes the caller whose turn is next; where more
    // wait than there are places, some others too
    resting: [EventCount; PLACES],
    ghost shape: { (table.shared.table_id.words ≡ 3) × (table.shared.table_id.slots ≡ 1) × (0 < table.shared.key) },
}

impl<V: Counted + Drop> TurnCell<V> {
    ghost use Rattle.std.specs.Prelude.{◌≡◌, ◌<◌, ◌≤◌, [], length, IfOk};
    ghost use Rattle.turn_cell.specs.Entries.{Each};
    ghost use Rattle.turn_cell.specs.Turn.{maker_view};
    ghost use Rattle.turn_cell.specs.Passes.{cell_seats, IsNew};

    /// A cell with this value, and the passes of the callers 0 to seats - 1, in order. For want of memory the value
    /// is dropped.
    pub fn new(
        alloc: Global,
        value: V,
        seats: u64,
    ) -> Result<(TurnCell<V>, List<Pass<V>>), NoMemory>
        requires seats { (0 < seats) × (seats ≤ 1000) }
        requires empty { V.entries value ≡ [] }
        ensures seats { IfOk result (λ r. (cell_seats r.0 ≡ seats) × (length r.1 ≡ seats)) }
        ensures passes { IfOk result (λ r. Each (IsNew r.0) r.1) }
    {
        let mut slots = Vec::new(alloc);
        if slots.push(Some(value)).is_err() {
            return Err(NoMemory);
        }
        let Ok((table, maker)) = Table::new(alloc, &[0, 0, 0], slots, &seats) else {
            return Err(NoMemory);
        };
        let cell = TurnCell {
            table,
            resting: from_fn(|_| EventCount::new()),
        };
        let passes = cell.make_passes(alloc, maker, seats)?;
        Ok((cell, passes))
    }

    fn make_passes(
        &self,
        alloc: Global,
        mut maker: Seat<Option<V>, View<V::Item>>,
        seats: u64,
    ) -> Result<List<Pass<V>>, NoMemory>
        requires table { maker.table_id ≡ self.now.table.shared.table_id }
        requires maker { maker.me ≡ (maker_view 0, []) }
        requires seats { seats ≡ self.now.table.shared.key }
        ensures count { IfOk result (λ passes. length passes ≡ seats) }
        ensures passes { IfOk result (λ passes. Each (IsNew self.now) passes) }
    {
        let mut passes = List::new(alloc);
        for number in 0..seats {
            let pass = self.make_pass(&mut maker, number);
            if passes.push(pass).is_err() {
                return Err(NoMemory);
            }
        }
        Ok(passes)
    }
}

impl<V: Counted> TurnCell<V> {
    ghost use Rattle.std.specs.Prelude.{◌≡◌, ℕ, ◌+◌, ◌<◌, ◌≤◌, ◌++◌, [], List, length, map, reverse, All, MatchBool, true, nat_eq, Some, None};
    ghost use Rattle.turn_cell.specs.Entries.{mine_of};
    ghost use Rattle.turn_cell.specs.Turn.{account, joined_view, maker_view};
    ghost use Rattle.turn_cell.specs.Steps.{own_account, full_account, idle_seat, IsIdle, Waits, IsHolding, HoldsValue, HasNoted, Takes, HasGrown, GoesOn, IsDone};
    ghost use Rattle.turn_cell.specs.Passes.{number_of, seen, known, mine, cell_seats, IsPassOf, IsNew, HaveAllNumbers, Extends, Adds, AgreesWith};

    /// Waits for the caller's turn, and does the work on the value in it.
    pub fn with_turn<W: TurnWork<V>, R: Wait>(
        &self,
        rt: &R,
        pass: &mut Pass<V>,
        work: W,
    ) -> W::Answer
        requires cell { IsPassOf self.now pass.old }
        requires caller { W.number work ≡ number_of pass.old }
        ensures cell { IsPassOf self.now pass.new }
        ensures extends { Extends pass.old pass.new }

        // The new `seen` is the list after the work.
        ensures turn { (before : List V.Item)
            × AgreesWith pass.old before
            × W.relates work before (seen pass.new) result
            × Adds pass.old before pass.new }
        ensures known { known pass.new ≡ length (seen pass.new) }
    {
        self.take_turn(rt, &mut pass.seat, work)
    }

    /// The length of the list at one moment. It waits for nobody.
    pub fn count(&self, pass: &mut Pass<V>) -> u64
        requires cell { IsPassOf self.now pass.old }
        ensures cell { IsPassOf self.now pass.new × (number_of pass.new ≡ number_of pass.old) }
        ensures known { (known pass.old ≤ result) × (known pass.new ≡ result) }
        ensures seen { (seen pass.new ≡ seen pass.old) × (mine pass.new ≡ mine pass.old) }
    {
        self.read_count(&mut pass.seat)
    }

    /// The value, once all passes have come back, in any order.
    pub fn close(self, passes: List<Pass<V>>) -> V
        requires cell { All (IsPassOf self) passes }
        requires all { HaveAllNumbers self passes }
        ensures passes { All (λ p. AgreesWith p (V.entries result)) passes }
        ensures others { (n : ℕ) → cell_seats self ≤ n → mine_of V.caller n (V.entries result) ≡ [] }
    {
        let mut passes = passes.into_vec();
        let last = passes.pop();
        let Some(last) = last else { unreachable!() };
        let Pass { mut seat, .. } = last;
        self.gather(&mut seat, passes);
        let TurnCell { table, .. } = self;
        let mut closed = table.close_with(seat);
        let value = closed.take(VALUE);
        closed.free();
        let Some(value) = value else { unreachable!() };
        value
    }

    fn make_pass(&self, maker: &mut Seat<Option<V>, View<V::Item>>, number: u64) -> Pass<V>
        requires table { maker.old.table_id ≡ self.now.table.shared.table_id }
        requires maker { maker.old.me ≡ (maker_view number, []) }
        requires room { number < self.now.table.shared.key }
        ensures same { maker.new.table_id ≡ maker.old.table_id }
        ensures maker { maker.new.me ≡ (maker_view (number + 1), []) }
        ensures pass { IsNew self.now number result }
    {
        let seat = self.table.shared.split_seat::<Another>(maker);
        Pass { number, seat }
    }

    fn draw(&self, seat: &mut Seat<Option<V>, View<V::Item>>) -> u64
        requires table { seat.old.table_id ≡ self.now.table.shared.table_id }
        requires idle { IsIdle seat.old.me }
        ensures same { (seat.new.table_id ≡ seat.old.table_id) × (seat.new.id ≡ seat.old.id) }
        ensures waits { Waits result (own_account seat.old.me.0) seat.new.me }
    {
        self.table.shared.fetch_add::<Draw>(seat, TICKET, 1)
    }

    // Where the caller with the ticket rests.
    fn place_of(&self, ticket: u64) -> &EventCount {
        &self.resting[(ticket % PLACES as u64) as usize]
    }

    // The ticket that is served. Where it is the caller's, the seat then has the value.
    fn look(&self, seat: &mut Seat<Option<V>, View<V::Item>>, ticket: u64) -> u64
        requires table { seat.old.table_id ≡ self.now.table.shared.table_id }
        requires waits { Waits ticket (own_account seat.old.me.0) seat.old.me }
        ensures same { (seat.new.table_id ≡ seat.old.table_id) × (seat.new.id ≡ seat.old.id) }
        ensures turn { MatchBool (nat_eq result ticket)
            (Takes V.entries V.caller (own_account seat.old.me.0) seat.new.me)
            (seat.new.me ≡ seat.old.me) }
    {
        self.table.shared.load::<Look>(seat, SERVING)
    }

    // Looks some times, without a rest. Whether the caller has its turn.
    fn look_again(&self, seat: &mut Seat<Option<V>, View<V::Item>>, ticket: u64) -> bool
        requires table { seat.old.table_id ≡ self.now.table.shared.table_id }
        requires waits { Waits ticket (own_account seat.old.me.0) seat.old.me }
        ensures same { (seat.new.table_id ≡ seat.old.table_id) × (seat.new.id ≡ seat.old.id) }
        ensures turn { MatchBool result
            (Takes V.entries V.caller (own_account seat.old.me.0) seat.new.me)
            (seat.new.me ≡ seat.old.me) }
    {
        for _ in 0..LOOKS {
            if self.look(seat, ticket) == ticket {
                return true;
            }
            spin_loop();
        }
        false
    }

    fn wait_for_turn<R: Wait>(&self, rt: &R, seat: &mut Seat<Option<V>, View<V::Item>>, ticket: u64)
        requires table { seat.old.table_id ≡ self.now.table.shared.table_id }
        requires waits { Waits ticket (own_account seat.old.me.0) seat.old.me }
        ensures same { (seat.new.table_id ≡ seat.old.table_id) × (seat.new.id ≡ seat.old.id) }
        ensures turn { Takes V.entries V.caller (own_account seat.old.me.0) seat.new.me }
    {
        if self.look_again(seat, ticket) {
            return;
        }
        for _ in rt.forever() {
            // announced before the test, so that no turn ends unnoticed between the test and the sleep
            let key = self.place_of(ticket).prepare_wait();
            if self.look(seat, ticket) == ticket {
                return;
            }
            key.wait(rt);
        }
        unreachable!()
    }

    fn take(&self, seat: &mut Seat<Option<V>, View<V::Item>>) -> Option<V>
        requires table { seat.old.table_id ≡ self.now.table.shared.table_id }
        requires holds { IsHolding seat.old.me }
        ensures same { (seat.new.table_id ≡ seat.old.table_id) × (seat.new.id ≡ seat.old.id) }
        ensures out { HoldsValue seat.old.me.0 result seat.old.me
            × HoldsValue seat.old.me.0 None seat.new.me }
    {
        self.table.shared.exchange(seat, VALUE, None)
    }

    fn put(&self, seat: &mut Seat<Option<V>, View<V::Item>>, value: V)
        requires table { seat.old.table_id ≡ self.now.table.shared.table_id }
        requires empty { HoldsValue seat.old.me.0 None seat.old.me }
        ensures same { (seat.new.table_id ≡ seat.old.table_id) × (seat.new.id ≡ seat.old.id) }
        ensures back { HoldsValue seat.old.me.0 (Some value) seat.new.me }
    {
        let old = self.table.shared.exchange(seat, VALUE, Some(value));
        let None = old else { unreachable!() };
    }

    // Counts the entry that was appended.
    fn note(&self, seat: &mut Seat<Option<V>, View<V::Item>>)
        requires table { seat.old.table_id ≡ self.now.table.shared.table_id }
        requires grown { (y : V)
            × HoldsValue seat.old.me.0 (Some y) seat.old.me
            × HasGrown V.caller true (own_account seat.old.me.0) (V.entries y) }
        ensures same { (seat.new.table_id ≡ seat.old.table_id) × (seat.new.id ≡ seat.old.id) }
        ensures noted { (y : V)
            → HoldsValue seat.old.me.0 (Some y) seat.old.me
            → HasNoted V.entries V.caller seat.old.me.0 y seat.new.me }
    {
        let _ = self.table.shared.fetch_add::<Note>(seat, COUNT, 1);
    }

    // Gives the value back and serves the next ticket.
    fn leave(&self, seat: &mut Seat<Option<V>, View<V::Item>>)
        requires table { seat.old.table_id ≡ self.now.table.shared.table_id }
        requires whole { (y : V)
            × HoldsValue seat.old.me.0 (Some y) seat.old.me
            × (V.entries y ≡ (own_account seat.old.me.0).seen) }
        ensures same { (seat.new.table_id ≡ seat.old.table_id) × (seat.new.id ≡ seat.old.id) }
        ensures idle { seat.new.me ≡ idle_seat (own_account seat.old.me.0) }
    {
        let _ = self.table.shared.fetch_add::<Leave>(seat, SERVING, 1);
    }

    // Ends the turn.
    fn finish(&self, seat: &mut Seat<Option<V>, View<V::Item>>, grown: bool)
        requires table { seat.old.table_id ≡ self.now.table.shared.table_id }
        requires value { (y : V)
            × HoldsValue seat.old.me.0 (Some y) seat.old.me
            × HasGrown V.caller grown (own_account seat.old.me.0) (V.entries y) }
        ensures same { (seat.new.table_id ≡ seat.old.table_id) × (seat.new.id ≡ seat.old.id) }
        ensures idle { (y : V)
            → HoldsValue seat.old.me.0 (Some y) seat.old.me
            → seat.new.me ≡ idle_seat (full_account (own_account seat.old.me.0).number (V.entries y)) }
    {
        if grown {
            self.note(seat);
            self.leave(seat);
        } else {
            self.leave(seat);
        }
    }

    fn take_turn<W: TurnWork<V>, R: Wait>(
        &self,
        rt: &R,
        seat: &mut Seat<Option<V>, View<V::Item>>,
        work: W,
    ) -> W::Answer
        requires table { seat.old.table_id ≡ self.now.table.shared.table_id }
        requires idle { IsIdle seat.old.me }
        requires caller { W.number work ≡ (own_account seat.old.me.0).number }
        ensures same { (seat.new.table_id ≡ seat.old.table_id) × (seat.new.id ≡ seat.old.id) }
        ensures turn { (before : List V.Item)
            × GoesOn V.caller (own_account seat.old.me.0) before
            × IsDone W.relates V.caller work before (own_account seat.old.me.0).number result seat.new.me }
    {
        let ticket = self.draw(seat);
        self.wait_for_turn(rt, seat, ticket);
        let taken = self.take(seat);
        let Some(mut value) = taken else {
            unreachable!()
        };
        let before = value.count();
        let answer = work.run(&mut value);
        let grown = value.count() != before;
        self.put(seat, value);
        self.finish(seat, grown);
        self.place_of(ticket.wrapping_add(1)).notify_all();
        answer
    }

    fn read_count(&self, seat: &mut Seat<Option<V>, View<V::Item>>) -> u64
        requires table { seat.old.table_id ≡ self.now.table.shared.table_id }
        requires idle { IsIdle seat.old.me }
        ensures same { (seat.new.table_id ≡ seat.old.table_id) × (seat.new.id ≡ seat.old.id) }
        ensures known { (own_account seat.old.me.0).known ≤ result }
        ensures account { seat.new.me
            ≡ idle_seat (account (own_account seat.old.me.0).number (own_account seat.old.me.0).seen result) }
    {
        self.table.shared.load::<Count>(seat, COUNT)
    }

    // Takes in the accounts of all other passes.
    fn gather(&self, seat: &mut Seat<Option<V>, View<V::Item>>, mut passes: Vec<Pass<V>>)
        requires table { seat.old.table_id ≡ self.now.table.shared.table_id }
        requires free { seat.old.me ≡ (joined_view seat.old.me.0.accounts, []) }
        requires passes { All (IsPassOf self.now) passes.items }
        ensures same { (seat.new.table_id ≡ seat.old.table_id) × (seat.new.id ≡ seat.old.id) }
        ensures all { seat.new.me
            ≡ (joined_view (seat.old.me.0.accounts ++ map (λ p. own_account p.seat.me.0) (reverse passes.items)), []) }
    {
        while let Some(pass) = passes.pop() {
            let Pass { seat: other, .. } = pass;
            self.table.shared.join_seat::<Gather>(seat, other);
        }
        passes.destroy_empty();
    }
}
