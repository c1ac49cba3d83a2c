//! The two windows of a session: what is taken, and what is sent again.
use crate::told::{array, outcome_of, tell};
use dasp_msg::{Due, Receiver, Sender};
use rows::{Case, CaseFault};
use sha1::Sha1;

/// What numbers are that come in.
pub fn receiving(case: &mut Case) {
    let script = case.text();
    let mut receiver = Receiver::new();
    for part in script.as_str().split(' ') {
        if let Some((first, last)) = part.split_once('-') {
            take_all(&mut receiver, case.parsed(first), case.parsed(last));
        } else if part == "ack" {
            tell(case, &receiver.ack());
        } else {
            let taken = receiver.take(case.parsed(part));
            tell(case, &taken);
        }
    }
    case.put(b"end");
}

fn take_all(receiver: &mut Receiver, first: u16, last: u16) {
    for number in first..=last {
        receiver.take(number);
    }
}

/// How many numbers come in many blocks, and the SHA-1 of what all of them are.
pub fn against(case: &mut Case) {
    let blocks: u32 = case.number();
    let steps = case.text();
    let mut receiver = Receiver::new();
    let mut all = Case::new(case.alloc(), Vec::new(case.alloc()));
    let mut count = 0u32;
    for block in 0..blocks {
        for step in steps.as_str().split(' ') {
            let step: i64 = case.parsed(step);
            let index = i64::from(block).saturating_mul(8).saturating_add(step);
            tell(&mut all, &receiver.take(index.rem_euclid(65_536) as u16));
            count = count.saturating_add(1);
        }
    }
    let all = outcome_of(case, all);
    case.say(&count);
    case.put(b" numbers, ");
    case.hex(Sha1::digest(all.as_slice()).as_slice());
}

/// What a sender answers.
pub fn sending(case: &mut Case) {
    let script = case.text();
    let Ok(mut sender) = Sender::new(case.alloc()) else {
        return case.fail(CaseFault::Memory);
    };
    let mut now = 0;
    for part in script.as_str().split(' ') {
        if let Some(moment) = part.strip_prefix("@") {
            now = case.parsed(moment);
        } else {
            do_part(case, &mut sender, part, now);
        }
    }
    case.put(b"end");
}

fn do_part(case: &mut Case, sender: &mut Sender, part: &str, now: i64) {
    if let Some((count, _)) = part.split_once("*post") {
        let count: u16 = case.parsed(count);
        for _ in 0..count {
            post(sender, now);
        }
    } else if let Some((ack, more)) = part.split_once('/') {
        let ack = case.parsed(ack.strip_prefix("ack:").unwrap_or(""));
        sender.acked(ack, Some(array(case, more)));
    } else if let Some(ack) = part.strip_prefix("ack:") {
        sender.acked(case.parsed(ack), None);
    } else if part == "post" {
        tell(case, &post(sender, now));
    } else if part == "room" {
        tell(case, &sender.room());
    } else {
        send_due(case, sender, now);
    }
}

fn post(sender: &mut Sender, now: i64) -> Option<u16> {
    if sender.room() {
        Some(sender.push(b"message", now))
    } else {
        None
    }
}

fn send_due(case: &mut Case, sender: &mut Sender, now: i64) {
    let due = sender.due(now);
    tell(case, &due);
    if let Due::Resend { number } = due {
        tell(case, &(sender.bytes(number) == b"message".as_slice()));
        sender.resend(number, now);
    }
}
