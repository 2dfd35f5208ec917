//! Instants of a kept zone compared.

use std::cmp::Ordering;
use zoned::{DateTime, KeptZone};

pub fn is_before(one: DateTime<KeptZone>, other: DateTime<KeptZone>) -> bool {
    one < other
}

pub fn is_referenced_before(one: &DateTime<KeptZone>, other: &DateTime<KeptZone>) -> bool {
    one < other
}

pub fn is_at_most(one: DateTime<KeptZone>, other: DateTime<KeptZone>) -> bool {
    one <= other
}

pub fn is_referenced_at_most(one: &DateTime<KeptZone>, other: &DateTime<KeptZone>) -> bool {
    one <= other
}

pub fn is_same(one: DateTime<KeptZone>, other: DateTime<KeptZone>) -> bool {
    one == other
}

pub fn is_referenced_same(one: &DateTime<KeptZone>, other: &DateTime<KeptZone>) -> bool {
    one == other
}

pub fn order(one: &DateTime<KeptZone>, other: &DateTime<KeptZone>) -> Ordering {
    one.cmp(other)
}

pub fn later(one: DateTime<KeptZone>, other: DateTime<KeptZone>) -> DateTime<KeptZone> {
    one.max(other)
}

pub fn earlier(one: DateTime<KeptZone>, other: DateTime<KeptZone>) -> DateTime<KeptZone> {
    one.min(other)
}

pub fn is_between(
    start: DateTime<KeptZone>,
    instant: DateTime<KeptZone>,
    end: DateTime<KeptZone>,
) -> bool {
    start <= instant && instant < end
}
