//! Theorems of spans: each function is empty, its contract is proved; never called.

ghost use Rattle.std.specs.Prelude.{◌≡◌, ◌-ℤ◌, pos, ℤ};
ghost use Rattle.{
  tz_base.specs.LocalTypes.{LocalType},
  tz_info.specs.{Changes.{IsChange}, Spans.{IsInSpan, IsSpan, IsSpanAt}, Zones.{TypeAt, Zone}},
};

use tz_base::{Change, Span};

/// A second lies in one span: two spans that share it are equal. No change comes within a span.
#[tactic(auto, using(crate::proofs::SpanLaws::span_once, crate::proofs::SpanLaws::no_change_within))]
pub fn one_span_law()
    ensures once { (z : Zone) (a b : Span) (u : ℤ) → IsSpanAt (TypeAt z) u a
        → IsSpanAt (TypeAt z) u b → a ≡ b }
    ensures parted { (z : Zone) (a b : Span) (u : ℤ) → IsSpan (TypeAt z) a → IsSpan (TypeAt z) b
        → IsInSpan a u → IsInSpan b u → a ≡ b }
    ensures unchanged { (z : Zone) (s : Span) (d : Change) → IsSpan (TypeAt z) s
        → IsChange (TypeAt z) d → IsInSpan s (d.at -ℤ pos 1) → ¬ (IsInSpan s d.at) }
{}

/// If the zone has a type just before a span or just after it, clocks change at that end.
pub fn span_ends_law()
    ensures begins { (z : Zone) (s : Span) (u : ℤ) (t : LocalType) → IsSpan (TypeAt z) s
        → s.from ≡ Some u → TypeAt z (u -ℤ pos 1) t
        → IsChange (TypeAt z) (record { at = u; before = t; after = s.local_time_type }) }
    ensures ends { (z : Zone) (s : Span) (u : ℤ) (t : LocalType) → IsSpan (TypeAt z) s
        → s.until ≡ Some u → TypeAt z u t
        → IsChange (TypeAt z) (record { at = u; before = s.local_time_type; after = t }) }
{}
