//! Tests of the desk: sessions that call in turn and on real threads, the closing check, and limits met through a desk.

mod desks;
mod threads;
