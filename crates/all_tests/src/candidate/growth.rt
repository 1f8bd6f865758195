//! Each call that takes memory. A test passes, too, where one request for memory is refused, whichever it is: the call
//! that is refused answers NoMemory, and made again it gives its own answer. So `tools/refuse-each-growth` runs the tests
//! once for each request.

use crate::candidate::texts::{any, has_runs, told};
use crate::rows::{all_answered, expect};
use events::{Access, Order, Run};

/// A test with each kind of statement.
pub const G: &str = "C G
{ int x=3; 1:q=2; y }
P0 (atomic_int* x, int* y) {
  int a = atomic_load(x), b;
  ;
  { *y = a == 1 && !(b != 2) || 4; }
  if (a) b = atomic_exchange_explicit(x, 1, memory_order_acq_rel); else a = *y;
  if (b) atomic_store_explicit(x, b, memory_order_release);
  atomic_thread_fence(memory_order_seq_cst);
}
P1 (atomic_int* x) { int r; }
locations [y; 0:b]
forall ~(1:q=2 /\\ x=1) \\/ 0:a=0 => (true \\/ false)
";

/// Whether the first event of a run reads this value by this order.
fn reads_first(run: Option<&Run>, value: u32, order: Order) -> bool {
    let Some(run) = run else {
        return false;
    };
    match run.events().first() {
        Some(event) => {
            event.access == Access::Read && event.value == value && event.order == order
        }
        None => false,
    }
}

/// Whether the first of 25 runs reads 0, and the last 4.
fn read_0_to_4(runs: &[Run]) -> bool {
    reads_first(runs.get(0), 0, Order::Sc) && reads_first(runs.get(24), 4, Order::Sc)
}

/// The first thread reads one of five values, and then one of five again, into `b` or, where it read 0, into `a`.
#[test]
fn runs_of_threads(rt: HostRuntime) {
    let alloc = rt.alloc();
    expect(
        &rt,
        "P0",
        has_runs(alloc, "G", 0, Some(Ok(25)), read_0_to_4),
    );
    expect(&rt, "P1", has_runs(alloc, "G", 1, Some(Ok(1)), any));
}

/// 13 later writes of one location are in more than 2^32 orders.
const SPACES: &str = "# spaces

size: SB ==> 16

executions: SB ==> 4

# no space

size: C T
{}P0(atomic_int*x){
        atomic_store(x,1); atomic_store(x,1); atomic_store(x,1); atomic_store(x,1); atomic_store(x,1);
        atomic_store(x,1); atomic_store(x,1); atomic_store(x,1); atomic_store(x,1); atomic_store(x,1);
        atomic_store(x,1); atomic_store(x,1); atomic_store(x,1); }exists x=0 ==> TooManyCandidates";

#[test]
fn spaces(rt: HostRuntime) {
    all_answered(&rt, rt.alloc(), "spaces", SPACES, told);
}
