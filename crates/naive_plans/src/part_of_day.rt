//! Numbers of seconds of which a day has a whole number.
ghost use Rattle.naive_plans.specs.PartsOfDay.{IsPartOfDay};

/// A number of seconds of which a day has a whole number.
#[derive(Clone, Copy, PartialEq, Eq, Debug)]
pub struct PartOfDay {
    pub(crate) seconds: u32,
    pub ghost part: { IsPartOfDay seconds },
}
