//! The subscriptions of a pipeline.
//!
//! A case begins with `pair`: consumer 2 subscribes to producer 1, with demand from 5 to 10. Its acts are `ask`, for what is
//! due; `sent=N`; `handled=N`; `close`; `renew`; `see`: what is due, the open demand, and whether an ask is due at all;
//! `below=STAGE`, the open demand on a producer; `last=GENERATION`; and `live`, the generation that is live. Or it begins with
//! `many`: `fill`, of 4,096 pairs, until one is refused; `count`, of those that are live and as new; `live=PLACE`.

ghost use Rattle.std.specs.Prelude.{◌≡◌, ◌+◌, ◌/◌, ◌%◌, ◌≤◌, [], Some};
ghost use Rattle.pipe_types.specs.Numbers.{stage, subscription};
ghost use Rattle.stage_subs.specs.{Subs.{row_at}, declared.TheConstants.{LAST_STAGE}};

use crate::words::{Case, cut, item, mode_of, number, refuse, short, why_of};
use pipe_types::numbers::{StageNo, SubNo};
use stage_subs::{Subs, SubsFault, exits};
use told_text::Told;

const CONSUMER: StageNo = StageNo(2);

const PRODUCER: StageNo = StageNo(1);

/// No case asks for more.
const MOST: u64 = 1_000_000;

/// Whether a consumer goes with its producer, of each `MODE:WHY`.
pub fn run_cancels(told: &mut Told, case: &Case<'_>) {
    for act in case.acts.split_whitespace() {
        told.flag(exits(mode_of(item(act, 0)), why_of(item(act, 1))));
    }
}

/// The subscription of the pair, its generation, whether it is live, and its counts beside it.
#[derive(Drop)]
struct Pair {
    subs: Subs,
    generation: u32,
    live: bool,
    asked: u64,
    sent: u64,
    handled: u64,
    ghost row: { row_at subs (stage 2) (stage 1) ≡ Some (record { generation = generation; is_live = live; counts = record { min = 5; max = 10; asked = asked; arrived = sent; handled = handled } }) },
}

pub fn run(told: &mut Told, case: &Case<'_>) {
    if case.begun == "many" {
        return run_many(told, case.acts);
    }
    let Some(mut pair) = begin(Subs::new(told.alloc)) else {
        return refuse(told);
    };
    for act in case.acts.split_whitespace() {
        let (verb, rest) = cut(act, '=');
        if !change(&mut pair, verb, number(rest)) {
            ask_pair(told, &pair, verb, rest);
        }
    }
}

fn begin(subs: Subs) -> Option<Pair>
    requires { subs ≡ [] }
{
    let mut subs = subs;
    let Ok(sub) = subs.add(CONSUMER, PRODUCER, 5, 10) else {
        return None;
    };
    Some(Pair {
        subs,
        generation: sub.generation,
        live: true,
        asked: 0,
        sent: 0,
        handled: 0,
    })
}

fn sub_of(generation: u32) -> SubNo
    ensures { result ≡ subscription (stage 2) (stage 1) generation }
{
    SubNo {
        consumer: CONSUMER,
        producer: PRODUCER,
        generation,
    }
}

/// Does an act that changes the subscription, and answers whether it is one that is allowed.
fn change(pair: &mut Pair, verb: &str, n: u32) -> bool {
    match verb {
        "ask" => ask(pair),
        "sent" => send(pair, n),
        "handled" => handle(pair, n),
        "close" => close(pair),
        "renew" => renew(pair),
        _ => false,
    }
}

fn ask(pair: &mut Pair) -> bool {
    if !pair.live || pair.asked > MOST {
        return false;
    }
    let sub = sub_of(pair.generation);
    let due = pair.subs.due(sub);
    pair.subs.ask(sub, due);
    pair.asked += u64::from(due);
    true
}

fn send(pair: &mut Pair, n: u32) -> bool {
    let sub = sub_of(pair.generation);
    if !pair.live || n > pair.subs.room_of(sub) || pair.sent > MOST {
        return false;
    }
    pair.subs.sent(sub, n);
    pair.sent += u64::from(n);
    true
}

fn handle(pair: &mut Pair, n: u32) -> bool {
    let count = u64::from(n);
    if pair.handled > MOST || pair.handled + count > pair.sent {
        return false;
    }
    pair.subs.handled(sub_of(pair.generation), n);
    pair.handled += count;
    true
}

fn close(pair: &mut Pair) -> bool {
    if !pair.live {
        return false;
    }
    pair.subs.close(sub_of(pair.generation));
    pair.live = false;
    true
}

fn renew(pair: &mut Pair) -> bool {
    if pair.live || pair.generation > 1_000 {
        return false;
    }
    pair.subs.renew(CONSUMER, PRODUCER, 5, 10);
    pair.generation += 1;
    pair.live = true;
    pair.asked = 0;
    pair.sent = 0;
    pair.handled = 0;
    true
}

fn ask_pair(told: &mut Told, pair: &Pair, verb: &str, rest: &str) {
    match verb {
        "see" => see(told, pair),
        "below" => told.count(pair.subs.room_below(StageNo(short(rest)))),
        "last" => told.flag(pair.subs.is_last(sub_of(number(rest)))),
        "live" => tell_live(told, &pair.subs, sub_of(0)),
        _ => refuse(told),
    }
}

/// What is due on the last subscription, its open demand, and whether an ask is due at all.
fn see(told: &mut Told, pair: &Pair) {
    let sub = sub_of(pair.generation);
    told.count(u64::from(pair.subs.due(sub)));
    told.behind("/", u64::from(pair.subs.room_of(sub)));
    told.flag_behind("/", pair.subs.has_due());
}

/// The generation of the pair's live subscription.
fn tell_live(told: &mut Told, subs: &Subs, pair: SubNo) {
    match subs.live_of(pair.consumer, pair.producer) {
        Some(sub) => told.count(u64::from(sub.generation)),
        None => told.add(" none"),
    }
}

fn run_many(told: &mut Told, acts: &str) {
    let mut subs = Subs::new(told.alloc);
    for act in acts.split_whitespace() {
        let (verb, rest) = cut(act, '=');
        match verb {
            "fill" => fill(told, &mut subs),
            "count" => told.count(u64::from(count_new(&subs))),
            "live" => tell_live(told, &subs, sub_at(short(rest))),
            _ => refuse(told),
        }
    }
}

/// The first subscription of a pair, by its place: 64 producers for each consumer from 1.
fn sub_at(place: u16) -> SubNo
    ensures consumer { result.consumer ≡ stage (1 + place / 64) }
    ensures producer { result.producer ≡ stage (1 + place % 64) }
{
    SubNo {
        consumer: StageNo(1 + place / 64),
        producer: StageNo(1 + place % 64),
        generation: 1,
    }
}

/// Adds a subscription for each pair until one is refused. Answers how many were added, and why no more.
fn fill(told: &mut Told, subs: &mut Subs) {
    for place in 0..4_096 {
        if let Err(fault) = add(subs, sub_at(place)) {
            told.count(u64::from(place));
            return told.flag_behind("/", fault == SubsFault::Full);
        }
    }
    told.count(4_096);
}

/// Adds the pair's first subscription. A pair that had one is passed over.
fn add(subs: &mut Subs, sub: SubNo) -> Result<(), SubsFault>
    requires consumer { sub.consumer.0 ≤ LAST_STAGE }
    requires producer { sub.producer.0 ≤ LAST_STAGE }
{
    let before = SubNo {
        generation: 0,
        ..sub
    };
    if subs.live_of(sub.consumer, sub.producer).is_none() && subs.is_last(before) {
        subs.add(sub.consumer, sub.producer, 5, 10)?;
    }
    Ok(())
}

/// How many pairs have their first subscription live, with nothing asked for.
fn count_new(subs: &Subs) -> u16 {
    let mut count = 0;
    for place in 0..4_096 {
        if is_new(subs, sub_at(place)) {
            count += 1;
        }
    }
    count
}

fn is_new(subs: &Subs, sub: SubNo) -> bool {
    let is_live = subs.live_of(sub.consumer, sub.producer) == Some(sub);
    is_live && subs.due(sub) == 10 && subs.room_of(sub) == 0
}
