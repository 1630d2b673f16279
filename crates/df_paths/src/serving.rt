//! Flow sent along the walks that a search found.
use crate::lists::{add, at, put};
use crate::open::Open;
use crate::search::Search;

/// How much can be sent back along the walk to a node, and at most this much.
fn room(open: &Open, search: &Search, start: usize, end: usize, most: i64) -> i64 {
    let mut room = most;
    let mut node = end;
    for _ in 0..open.numbers.len() {
        if node == start {
            break;
        }
        let Some(step) = search.came(node) else {
            break;
        };
        if !step.ahead {
            room = room.min(at(&open.flow, step.arc));
        }
        node = step.from;
    }
    room
}

/// Sends flow along the walk to a node.
fn send(open: &mut Open, search: &Search, start: usize, end: usize, units: i64) {
    let mut node = end;
    for _ in 0..open.numbers.len() {
        if node == start {
            break;
        }
        let Some(step) = search.came(node) else {
            break;
        };
        let change = if step.ahead {
            units
        } else {
            units.saturating_neg()
        };
        add(&mut open.flow, step.arc, change);
        node = step.from;
    }
    add(&mut open.needs, end, units.saturating_neg());
    add(&mut open.needs, start, units);
}

/// Serves the found nodes in their order, and answers the distance of the last one that was served. Beyond a node that is left with a
/// need nothing is sent.
pub fn serve_found(open: &mut Open, search: &Search, start: usize) -> i64 {
    let mut raise = 0;
    let mut held = false;
    for end in search.found() {
        let distance = open.distance(*end, search.label(*end));
        if held && distance > raise {
            break;
        }
        raise = distance;
        let most = at(&open.needs, *end).min(at(&open.needs, start).saturating_neg());
        let units = room(open, search, start, *end, most);
        send(open, search, start, *end, units);
        held = held || at(&open.needs, *end) > 0;
    }
    raise
}

/// Raises the numbers of the nodes that are nearer than this distance, so that the walks to those that were served are tight.
pub fn raise_line(open: &mut Open, search: &Search, raise: i64) {
    for node in search.line() {
        let number = search
            .label(*node)
            .saturating_add(raise)
            .max(at(&open.numbers, *node));
        put(&mut open.numbers, *node, number);
    }
}
