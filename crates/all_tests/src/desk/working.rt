//! Tests of the workers: several on real threads, beside sessions, and one whose calls are refused.

mod calls;
mod gates;
mod refusals;
mod running;
mod sharing;
