//! The calls of C's atomics that a test has, and their orders: a row for each. (ISO/IEC 9899:2011, 7.17.)

ghost use Rattle.std.specs.Prelude.{◌≡◌};
ghost use Rattle.litmus_syntax.specs.Atomics.{calls, orders, effect_of, accepted, is_valued};
ghost use Rattle.litmus_syntax.specs.Symbols.{looked_up};

use crate::table::looked_up;
use events::Order;
use litmus_tree::Computation;

/// A call of C's atomics.
#[derive(Clone, Copy, PartialEq, Eq)]
pub enum Operation {
    Load,
    LoadExplicit,
    Store,
    StoreExplicit,
    Exchange,
    ExchangeExplicit,
    FetchAdd,
    FetchAddExplicit,
    Fence,
}

/// What a call does: its arguments and the call of the tree that it becomes follow from it.
#[derive(Clone, Copy)]
pub enum Effect {
    /// Reads.
    Loads,
    /// Writes the value of its second argument.
    Stores,
    /// Reads, and writes the value of its second argument.
    Exchanges,
    /// Reads, and writes what is computed of the value read and of its second argument, a number.
    Modifies(Computation),
    /// Is a fence, and has no location.
    Fences,
}

impl Effect {
    /// Whether the call has a value: that of its read.
    pub fn is_valued(self) -> bool
        ensures { result ≡ is_valued self }
    {
        match self {
            Effect::Loads | Effect::Exchanges | Effect::Modifies(_) => true,
            Effect::Stores | Effect::Fences => false,
        }
    }
}

/// Hands the table of calls to a macro, behind what that macro is given. A row has the call, its word, its effect, and the
/// orders that it takes. `sc`: it has no argument for its order.
macro_rules! calls {
    ($act:ident $given:tt) => {
        $act! { $given
            Load: b"atomic_load", Loads, sc;
            LoadExplicit: b"atomic_load_explicit", Loads, [Rlx, Acq, Sc];
            Store: b"atomic_store", Stores, sc;
            StoreExplicit: b"atomic_store_explicit", Stores, [Rlx, Rel, Sc];
            Exchange: b"atomic_exchange", Exchanges, sc;
            ExchangeExplicit: b"atomic_exchange_explicit", Exchanges, all;
            FetchAdd: b"atomic_fetch_add", Modifies(Addition), sc;
            FetchAddExplicit: b"atomic_fetch_add_explicit", Modifies(Addition), all;
            Fence: b"atomic_thread_fence", Fences, all;
        }
    };
}

/// Hands the table of orders to a macro, behind what that macro is given. A row has the order and its word.
macro_rules! orders {
    ($act:ident $given:tt) => {
        $act! { $given
            Rlx: b"memory_order_relaxed";
            Acq: b"memory_order_acquire";
            Rel: b"memory_order_release";
            AcqRel: b"memory_order_acq_rel";
            Sc: b"memory_order_seq_cst";
        }
    };
}

/// The words of all rows, each with its call.
macro_rules! call_words {
    (() $($call:ident: $word:literal, $effect:ident $(($computation:ident))?, $takes:tt;)*) => {
        [$(($word, Operation::$call)),*]
    };
}

/// The words of all rows, each with its order.
macro_rules! order_words {
    (() $($order:ident: $word:literal;)*) => { [$(($word, Order::$order)),*] };
}

/// The orders that the call's row says.
macro_rules! taken {
    (($operation:ident) $($call:ident: $word:literal, $effect:ident $(($computation:ident))?, $takes:tt;)*) => {
        match $operation {
            $(Operation::$call => written!($takes),)*
        }
    };
}

/// The orders that a row lists as its call's last argument.
macro_rules! written {
    (sc) => { &[] };
    (all) => { orders!(listed()) };
    ([$($order:ident),*]) => { &[$(Order::$order),*] };
}

/// The orders of all rows.
macro_rules! listed {
    (() $($order:ident: $word:literal;)*) => { &[$(Order::$order),*] };
}

/// The effect that the call's row says.
macro_rules! caused {
    (($operation:ident) $($call:ident: $word:literal, $effect:ident $(($computation:ident))?, $takes:tt;)*) => {
        match $operation {
            $(Operation::$call => Effect::$effect $((Computation::$computation))?,)*
        }
    };
}

const CALLS: [(&[u8], Operation); 9] = calls!(call_words());

const ORDERS: [(&[u8], Order); 5] = orders!(order_words());

/// The call of this name.
pub fn call_named(bytes: &[u8]) -> Option<Operation>
    ensures { result ≡ looked_up calls bytes.now }
{
    looked_up(&CALLS, bytes)
}

/// The order of this name.
pub fn order_named(bytes: &[u8]) -> Option<Order>
    ensures { result ≡ looked_up orders bytes.now }
{
    looked_up(&ORDERS, bytes)
}

/// The orders that a call takes as its last argument. One that takes none has no such argument, and its order is `sc`.
pub fn accepted(operation: Operation) -> &'static [Order]
    ensures { result.now ≡ accepted operation }
{
    calls!(taken(operation))
}

/// What a call does.
pub fn effect_of(operation: Operation) -> Effect
    ensures { result ≡ effect_of operation }
{
    calls!(caused(operation))
}
