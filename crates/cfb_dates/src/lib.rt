//! Moments as text: the date of the Gregorian calendar and the time of day, in UTC.
#![tactic(auto)]

pub mod calendar;
pub mod laws;
pub mod moment;
