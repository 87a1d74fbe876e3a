//! Each call and each work step by step on a small table, told as text.
//!
//! The first line of a text is the shape of its tables: slots, text words, least and greatest level, seats. A line
//! `# counted 3 6: NAME` begins a scene, with a table that has no entry, of level 3 and with a grace counter of 6. The
//! other lines have items, with a `;` between any two:
//!
//! - `head 3.1 = 12`: a word as a call finds it, or as another seat leaves it.
//! - `seat 1 2`: the seat of number 1 calls next, with its cursor at slot 2 and nothing unfinished.
//! - `intern a`, `drop 3.2`, `grow`, `poll work` and their like: the seat begins this call, here of the text "a", and
//!   of the handle of slot 3 at generation 2.
//! - `K10 section 1 = 7 Open(6)`: the call makes this step, which adds this to the log. After the place a load has
//!   nothing, a store `= 7`, a swap `<- 1`, an addition `+ 2`, and an exchange `: 0 > 12`.
//! - `Dropped { left: 2 }`: the call answers.
//! - `passed 1`, `cursor 3`, `keeps work`: how many nodes the last call passed, where the cursor of the seat is, and
//!   what it has unfinished. `asks [97]`: the bytes of the text of the call that goes on.
//! - `left count 3 = 2.3`: a word that the calls changed. No other word is another than before.
//!
//! A count is written with its generation before it, a meta with its hash before it, and a text word in quotes. An
//! item that begins with the name of a run stands for the items of the run (`runs`).
use crate::call::Call;
use crate::{
    begin_laws, call_laws, claim_laws, clean_laws, grace_laws, machine_laws, measure_laws,
    resize_laws, section_laws, sweep_laws, work_laws,
};
use intern_log::Kind;
use seat::{Act, Seat};
use std::alloc::{AllocError, Global};
use std::fmt::Write;
use std::process::Abort;
use std::test::Fail;
use table::Table;
use table_shape::{Place, Shape};
use words::number;

mod cleans;
mod handles;
mod inserts;
mod lookups;
mod many;
mod resizes;
mod runs;
mod seat;
mod table;
mod waits;
mod words;

/// Scenes on their way.
#[derive(Drop)]
struct Player<'t> {
    alloc: Global,
    shape: Shape,
    kind: Kind,
    scene: &'t str,
    line: usize,
    table: Table,
    seat: Seat<'t>,
}

impl<'t> Player<'t> {
    /// Fails unless it is a fact.
    fn holds(&self, rt: &impl Abort, fact: bool, item: &str, why: &str) {
        let Player { scene, line, .. } = self;
        assert!(rt; fact, "scene \"{scene}\", line {line}, \"{item}\": {why}");
    }

    /// The index of a word.
    fn index(&self, rt: &impl Abort, place: Place) -> usize {
        assert!(rt; self.shape.check().is_ok());
        assert!(rt; self.shape.has(place), "no word of the table: {place:?}");
        self.shape.index(place) as usize
    }

    /// A word as a call finds it.
    fn has(&mut self, rt: &impl Abort, place: Place, word: u64) {
        let at = self.index(rt, place);
        self.table.put(at, word);
    }

    /// A word that the calls changed.
    fn leaves(&mut self, rt: &impl Abort, place: Place, word: u64, item: &str) {
        let at = self.index(rt, place);
        let left = self.table.leaves(at, word);
        self.holds(rt, left, item, "it is not left so");
    }

    /// Fails unless no call goes on and each word is as the items have told.
    fn rests(&self, rt: &impl Abort) -> Result<(), AllocError> {
        self.holds(rt, self.seat.is_idle(), "", "a call goes on");
        if let Some(at) = self.table.untold() {
            let why = format!(in self.alloc; "the word of index {at} is another than told")?;
            self.holds(rt, false, "", why.as_str());
        }
        Ok(())
    }

    /// A scene begins, with a table that has no entry.
    fn begins(&mut self, rt: &impl Abort, line: &'t str) -> Result<(), AllocError> {
        self.rests(rt)?;
        let (table, scene) = line.split_once(": ").unwrap_or(("", line));
        self.scene = scene;
        let mut words = table.split_whitespace();
        match words.next().unwrap_or("") {
            "weak" => self.kind = Kind::Weak,
            _ => self.kind = Kind::Counted,
        }
        self.table = Table::of(self.alloc, self.shape)?;
        self.has(rt, Place::Draws, 1);
        self.has(rt, Place::Level, number(rt, words.next().unwrap_or("")));
        self.has(rt, Place::Counter, number(rt, words.next().unwrap_or("")));
        Ok(())
    }

    /// The next step of the call with its event, or its answer.
    fn acted(&mut self, rt: &impl Abort, item: &str) -> Result<String, AllocError> {
        self.holds(rt, !self.seat.is_idle(), item, "no call goes on");
        match self.seat.acts(rt, self.alloc, &mut self.table)? {
            Act::Answers(answer) => format!(in self.alloc; "{answer:?}"),
            Act::Makes(kind, place, op, event) => {
                let mut text = format!(in self.alloc; "{kind:?} ")?;
                words::write_step(&mut text, place, op)?;
                words::write_event(&mut text, event)?;
                Ok(text)
            }
            Act::Refuses(word) => format!(in self.alloc; "no word for this step: {word}"),
        }
    }

    /// Fails unless what comes next, or what the seat has, is as the item says.
    fn expects(&mut self, rt: &impl Abort, verb: &str, item: &str) -> Result<(), AllocError> {
        let found = match verb {
            "passed" => format!(in self.alloc; "passed {}", self.seat.passed())?,
            "cursor" => format!(in self.alloc; "cursor {}", self.seat.cursor())?,
            "asks" => format!(in self.alloc; "asks {:?}", self.seat.text())?,
            "keeps" => format!(in self.alloc; "keeps {}", self.seat.keeps())?,
            _ => self.acted(rt, item)?,
        };
        self.holds(rt, found.as_str() == item, item, found.as_str());
        Ok(())
    }

    /// Begins a call.
    fn calls(&mut self, rt: &impl Abort, call: Call<'t>, item: &str) {
        let may = self.seat.is_idle() && self.seat.may_start(call);
        self.holds(rt, may, item, "the seat may not make this call");
        self.seat.begins(rt, call);
    }

    /// Plays an item.
    fn plays(&mut self, rt: &impl Abort, item: &'t str) -> Result<(), AllocError> {
        let (verb, rest) = item.split_once(' ').unwrap_or((item, ""));
        match verb {
            "" => {}
            "#" => self.begins(rt, rest)?,
            "seat" => {
                let (seat, cursor) = rest.split_once(' ').unwrap_or((rest, "0"));
                let (seat, cursor) = (number(rt, seat), number(rt, cursor));
                self.seat = Seat::of(rt, self.kind, self.shape, seat, cursor);
            }
            "left" => match words::told(rt, rest) {
                Some((place, word)) => self.leaves(rt, place, word, item),
                None => self.holds(rt, false, item, "no word"),
            },
            _ if item.starts_with('K') => self.expects(rt, verb, item)?,
            _ => match (call_of(rt, verb, rest), words::told(rt, item)) {
                (Some(call), _) => self.calls(rt, call, item),
                (None, Some((place, word))) => self.has(rt, place, word),
                (None, None) => self.expects(rt, verb, item)?,
            },
        }
        Ok(())
    }
}

/// The call that an item names.
fn call_of<'t>(rt: &impl Abort, verb: &str, rest: &'t str) -> Option<Call<'t>> {
    match verb {
        "split" => Some(Call::Split),
        "intern" => Some(Call::Intern(rest.as_bytes())),
        "lookup" => Some(Call::Lookup(rest.as_bytes())),
        "intern_wait" => Some(Call::InternWait(rest.as_bytes())),
        "sweep" => Some(Call::Sweep(rest.as_bytes())),
        "read" => Some(Call::TextOf(words::handle(rt, rest))),
        "drop" => Some(Call::Drop(words::handle(rt, rest))),
        "permanent" => Some(Call::Permanent(words::handle(rt, rest))),
        "kill" => Some(Call::Kill(words::handle(rt, rest))),
        "clean" => Some(Call::BeginClean),
        "grow" => Some(Call::BeginGrow),
        "shrink" => Some(Call::BeginShrink),
        "grace" => Some(Call::BeginGrace),
        "poll" => Some(if rest == "grace" {
            Call::PollGrace
        } else {
            Call::PollWork
        }),
        _ => None,
    }
}

/// The shape that a text begins with.
fn shape_of(rt: &impl Abort, text: &str) -> Shape {
    let mut numbers = text.split_whitespace();
    Shape {
        slots: number(rt, numbers.next().unwrap_or("")),
        text_words: number(rt, numbers.next().unwrap_or("")),
        min_level: number(rt, numbers.next().unwrap_or("")),
        max_level: number(rt, numbers.next().unwrap_or("")),
        seats: number(rt, numbers.next().unwrap_or("")),
    }
}

/// Plays the scenes of a text without runs.
fn play_scenes(rt: &impl Abort, alloc: Global, shape: Shape, text: &str) -> Result<(), AllocError> {
    let mut player = Player {
        alloc,
        shape,
        kind: Kind::Counted,
        scene: "",
        line: 1,
        table: Table::of(alloc, shape)?,
        seat: Seat::of(rt, Kind::Counted, shape, 0, 0),
    };
    for line in text.lines() {
        player.line = player.line.saturating_add(1);
        for item in line.split(';') {
            player.plays(rt, item.trim())?;
        }
    }
    player.rests(rt)
}

/// Plays the scenes of a text.
fn play(rt: &impl Abort, alloc: Global, text: &str) -> Result<(), Fail> {
    let (first, scenes) = text.trim().split_once('\n').unwrap_or(("", ""));
    let scenes = runs::expand(rt, alloc, scenes)?;
    play_scenes(rt, alloc, shape_of(rt, first), scenes.as_str())?;
    Ok(())
}

#[test]
fn calls_go_step_by_step(rt: HostRuntime) -> Result<(), Fail> {
    play(&rt, rt.alloc(), lookups::SCENES)?;
    play(&rt, rt.alloc(), inserts::SCENES)?;
    play(&rt, rt.alloc(), waits::SCENES)?;
    play(&rt, rt.alloc(), handles::SCENES)
}

#[test]
fn works_go_step_by_step(rt: HostRuntime) -> Result<(), Fail> {
    play(&rt, rt.alloc(), cleans::SCENES)?;
    play(&rt, rt.alloc(), resizes::SMALL)?;
    play(&rt, rt.alloc(), resizes::WORKED)?;
    play(&rt, rt.alloc(), resizes::LAST_GRACE)
}

#[test]
fn long_buckets_are_cleaned_in_passes(rt: HostRuntime) -> Result<(), Fail> {
    play(&rt, rt.alloc(), many::ONE_BUCKET)?;
    play(&rt, rt.alloc(), many::TWO_BUCKETS)
}

#[test]
fn laws_can_be_called() {
    begin_laws::beginnings_begin_sound();
    begin_laws::beginnings_stay_sound();
    begin_laws::events_of_beginnings();
    begin_laws::resize_lock_after_beginnings();
    begin_laws::beginnings_answer_in_time();
    call_laws::calls_begin_sound();
    call_laws::got_keeps_a_call_sound();
    call_laws::steps_of_calls_are_sound();
    call_laws::calls_do_no_work();
    call_laws::visible_events_follow_the_steps();
    call_laws::no_visible_event_at_the_beginning();
    call_laws::visible_events_of_an_answer();
    call_laws::one_visible_event_at_most();
    call_laws::callers_see_what_the_answer_stands_for();
    claim_laws::claims_use_up_what_may_be_claimed();
    claim_laws::calls_claim_once();
    claim_laws::no_slot_is_answered_without_a_claim();
    claim_laws::only_interns_claim();
    clean_laws::cleans_are_sound();
    clean_laws::events_of_a_clean();
    clean_laws::locks_of_a_clean_come_in_pairs();
    clean_laws::a_clean_answers_with_what_it_counted();
    clean_laws::graces_of_a_clean_are_at_most_its_unlinks();
    clean_laws::full_passes_of_a_poll_are_few();
    clean_laws::a_poll_of_a_clean_answers_in_time();
    clean_laws::a_clean_gives_the_resize_lock_back_at_its_end_alone();
    clean_laws::slots_of_a_clean_are_freed_in_the_order_of_their_unlinking();
    grace_laws::graces_begin_with_the_raised_counter();
    grace_laws::a_grace_waits_for_older_sections_alone();
    grace_laws::passed_numbers_are_closed_or_newer();
    grace_laws::a_grace_is_over_behind_the_last_number();
    machine_laws::steps_of_machines_are_sound();
    machine_laws::calls_that_may_start_begin_sound();
    machine_laws::got_keeps_a_machine_sound();
    machine_laws::what_a_machine_leaves_is_sound();
    machine_laws::got_leaves_whose_machine_it_is();
    machine_laws::works_have_no_visible_event();
    machine_laws::a_seat_has_the_resize_lock_while_it_has_a_work();
    measure_laws::steps_lower_what_is_left();
    measure_laws::nodes_are_passed_by_their_links();
    measure_laws::runs_are_no_longer_than_what_is_left();
    measure_laws::calls_go_on_until_they_answer();
    measure_laws::calls_answer_in_time();
    measure_laws::worked_runs_are_counted();
    resize_laws::resizes_begin_sound();
    resize_laws::steps_keep_a_resize_sound();
    resize_laws::heads_locked_by_a_resize();
    resize_laws::a_whole_grow_unlocks_all_but_the_old_row();
    resize_laws::a_whole_shrink_unlocks_all_but_the_old_row();
    resize_laws::a_whole_resize_stores_its_level_and_gives_the_resize_lock_back();
    resize_laws::a_resize_stores_its_level_and_gives_the_resize_lock_back();
    resize_laws::a_whole_grow_has_a_grace_for_each_move();
    resize_laws::a_whole_shrink_has_a_grace_for_each_pair();
    resize_laws::resizes_answer_with_their_counts();
    resize_laws::polls_of_resizes_answer_in_time();
    resize_laws::a_grow_of_two_nodes();
    resize_laws::a_shrink_of_two_nodes();
    section_laws::sections_follow_the_events();
    section_laws::sections_of_a_call_come_in_pairs();
    section_laws::slots_follow_the_events();
    section_laws::claims_of_a_call_come_in_pairs();
    section_laws::writes_are_on_the_claimed_slot();
    sweep_laws::sweeps_are_sound();
    sweep_laws::events_of_a_sweep();
    sweep_laws::sections_of_a_sweep_come_in_pairs();
    sweep_laws::locks_of_a_sweep_come_in_pairs();
    sweep_laws::a_sweep_answers_with_how_many_slots_it_unlinked();
    sweep_laws::slots_of_a_sweep_are_freed_in_the_order_of_their_unlinking();
    sweep_laws::a_sweep_goes_on_in_time();
    work_laws::polls_of_a_work_follow_one_another();
    work_laws::cleans_are_polled_as_works();
    work_laws::resizes_are_polled_as_works();
}
