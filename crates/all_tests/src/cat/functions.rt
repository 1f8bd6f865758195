//! Functions of models: how they are read, what is refused, and what they mean.

use crate::cat::loading::{follow, is_so};
use crate::cat::syntax::read_as;
use crate::rows::{all_answered, all_hold};

/// A function with its parameter and body is three nodes, a call one, and its parentheses are a level.
const READ: &str = "# calls
let r = f(a) ==> f(a)
let r = f (a, b ; c) ==> f(a,(b;c))
let r = ~f(a)+ ==> ~((f(a))+)
let r = a * f(b) * f(c) ==> ((axf(b))xf(c))
let r = f(a)* | f(a * b) ==> ((f(a))*|f((axb)))
let r = f(g(a), h([b], 0), _) ==> f(g(a),h(id(b),0),_)
let r = domain(f({})) ==> domain(f({}))
let f(x) = x ==> x.x
let f(x, y) = f(y, x) \\ r ==> x.y.(f(y,x)-r)
let f(f) = f(f) and r = po ==> f.f(f)
let r (r) = a ==> r.a
# unread
# Without parameters or arguments.
let f() = po ==> 52 Syntax 6
let r = f() ==> 52 Syntax 10
let r = f(a,) ==> 52 Syntax 12
let r = f(a b) ==> 52 Syntax 12
let r = f(a ==> 52 Syntax 11
let r = _ (a) ==> 52 Syntax 10
# Parameters are names, each another.
let f(x,) = x ==> 52 Syntax 8
let f(x ==> 52 Syntax 7
let f(0) = x ==> 52 Syntax 6
let f(let) = x ==> 52 Syntax 6
let f(_) = x ==> 52 Syntax 6
let f(if) = x ==> 53 Unsupported if
let f(x, x) = x ==> 52 Syntax 9
let f(x, y, x) = x ==> 52 Syntax 12
# A group binds no name twice, and no function recursively.
let a = po and a(x) = x ==> 52 Syntax 15
let a(x) = x and a = po ==> 52 Syntax 17
let f(x) = x and f(y) = y ==> 52 Syntax 17
let rec f(x) = x ==> 53 Unsupported f
let rec r = r and f(x) = x ==> 53 Unsupported f
let rec r = r and r(x) = x ==> 52 Syntax 18
let rec r(x) = x and r = r ==> 53 Unsupported r
# Names elsewhere have no parentheses.
empty r as s (x) ==> 52 Syntax 13
title (x) ==> 52 Syntax 6
# limits
empty @f(@64@0@)@64@ ==> a tree
empty @f(@65@0 ==> 54 TooDeep
empty f(0@, 0@4093@) ==> a tree
empty f(0@, 0@4094@ ( ==> 55 TooLarge
empty f(0@, 0@4092@, f() ==> 52 Syntax 12289
empty f(0@, 0@4093@, f() ==> 55 TooLarge
@let f(x) = x @1365@unshow x ==> x.x
@let f(x) = x @1365@unshow x, y ==> 55 TooLarge";

const RESOLVED: &str = "# unbound
# In a body, though nothing calls the function.
let f(x) = x | y ==> 64 Unbound y
let f(x) = f(x) ==> 64 Unbound f
let f(x) = x and g(x) = f(x) ==> 64 Unbound f
let a = po and f(x) = a ==> 64 Unbound a
let f(x) = x and r = f(po) ==> 64 Unbound f
let f(x) = W ; y ==> 64 Unbound y
# A parameter is bound in the body alone.
let f(x) = x empty x ==> 64 Unbound x
let f(x) = x and r = x ==> 64 Unbound x
# A function's name before its arguments, and these from left to right.
empty g(h(i)) ==> 64 Unbound g
empty fencerel(h(i)) ==> 64 Unbound h
let f(x, y) = x empty f(a, b) ==> 64 Unbound a
let k(a, b) = a empty k(po, c) ==> 64 Unbound c
let rec r = f(r) ==> 64 Unbound f
flag ~empty f(r) as kept ==> 64 Unbound f
show f(x), f as g unshow f ==> 2 main.cat 1
# sorts at calls
let f(x) = [x] acyclic f(po) ==> 65 WrongSort acyclic
let f(x) = [x] empty f(W, R) ==> 65 WrongSort empty
let f(x) = [x] acyclic f(W) ==> 2 main.cat 1
let f(x) = x & x empty f(W) empty f(po) ==> 3 main.cat 1
# A body's sorts are looked at where it is called.
let f(x) = W ; po ==> 1 main.cat 1
let f(x) = W ; po empty f(0) ==> 65 WrongSort empty
let f(x) = W ; po let r = f(0) ==> 65 WrongSort r
let f(x) = W ; po let g(x) = f(x) ==> 2 main.cat 1
let f(x) = x ; po let g(x) = f(x) | po let rec r = g(W) ==> 65 WrongSort r
let f(x) = x let rec r = f(W) ==> 65 WrongSort r
# Also those of an argument that the body doesn't use.
let k(a, b) = a empty k(po, W ; po) ==> 65 WrongSort empty
let k(a, b) = a empty k(po, k(W)) ==> 65 WrongSort empty
let k(a, b) = a empty k(po, W) ==> 2 main.cat 1
# Wrong calls: of a value, of a parameter, with too few or too many arguments, and without parentheses.
let a = po empty a(po) ==> 65 WrongSort empty
empty po(W) ==> 65 WrongSort empty
let f(x) = x(po) ==> 1 main.cat 1
let f(x) = x(po) empty f(po) ==> 65 WrongSort empty
let f(x) = x let g(f) = f(po) empty g(0) ==> 65 WrongSort empty
let f(x) = x empty f(po, po) ==> 65 WrongSort empty
let f(x, y) = x let r = f(po) ==> 65 WrongSort r
let f(x) = x let g(x) = f(x, x) empty g(po) ==> 65 WrongSort empty
let f(x) = x acyclic f ==> 65 WrongSort acyclic
let f(x) = x let g(x) = f | x let r = g(po) ==> 65 WrongSort r
# scope
# What is bound beforehand.
let r = fencerel(F) | fencerel(F & SC) ==> 1 main.cat 1
let b = po empty fencerel(W) ==> 2 main.cat 1
empty fencerel(po) ==> 65 WrongSort empty
empty fencerel ==> 65 WrongSort empty
empty fencerel(W, R) ==> 65 WrongSort empty
let po = W empty fencerel(W) ==> 2 main.cat 1
let fencerel = po empty fencerel ==> 2 main.cat 1
let fencerel = po empty fencerel(W) ==> 65 WrongSort empty
let fencerel(a, b) = a empty fencerel(po, W) ==> 2 main.cat 1
include \"stdlib.cat\" empty fencerel(W) ==> 1 main.cat 1 stdlib.cat 0
# Functions and values have one scope.
let r = po let r(x) = x empty r ==> 65 WrongSort empty
let r(x) = x let r = po empty r ==> 3 main.cat 1
let po(x) = x empty po(rf) ==> 2 main.cat 1
let f(x) = x let f(x, y) = f(x) empty f(po, W) ==> 3 main.cat 1
let f(x) = x let g(f) = f empty g(po) ==> 3 main.cat 1
let a = W let a = po and f(x) = a acyclic f(0) ==> 65 WrongSort acyclic
# The names of a recursive group hide functions in it and behind it.
let f(x) = x let rec f = po | f empty f ==> 3 main.cat 1
let f(x) = x let rec f = f(po) ==> 65 WrongSort f
let f(x) = x let rec f = po | f empty f(po) ==> 65 WrongSort empty
let f(x) = x let rec f = po let g(x) = f(x) empty g(po) ==> 65 WrongSort empty
# denied names
let f(x) = ~x let rec r = f(r) ==> 66 NotMonotone r
let f(x) = ~x let rec r = f(f(r)) ==> 66 NotMonotone r
let f(x) = x let rec r = ~f(r) ==> 66 NotMonotone r
let d(x, y) = x \\ y let rec r = d(r, po) ==> 2 main.cat 1
let d(x, y) = x \\ y let rec r = d(po, r) ==> 66 NotMonotone r
let f(x) = x \\ po let g(x) = f(po \\ x) let rec r = g(r) ==> 66 NotMonotone r
let rec r = fencerel(domain(r)) ==> 1 main.cat 1
let rec r = po \\ fencerel(domain(r)) ==> 66 NotMonotone r
# The first of them as calls are replaced, and not as they are written.
let d(x, y) = ~y & ~x let rec r = d(r, s) and s = po ==> 66 NotMonotone s
let d(x, y) = ~x & ~y let rec r = d(r, s) and s = po ==> 66 NotMonotone r
# An argument that the body doesn't use is put nowhere.
let k(a, b) = a let rec r = k(po, ~r) ==> 2 main.cat 1
# Parameters, and what a body saw at its binding, aren't names of the group.
let f(r) = ~r let rec r = f(po) | r ==> 2 main.cat 1
let r = po let f(x) = x \\ r let rec r = f(r) | po ==> 3 main.cat 1
let f(x) = ~x let rec r = f(r) and s = W ==> 65 WrongSort s";

const MEANINGS: &str = "let f(x) = [x] acyclic f(W) ==> forbids
let f(x) = x & x empty f({}) empty f(0) ==> allows
let f(x) = x empty f(fr) ==> forbids
# Parameters are bound in order, hide other names, and stand for what arguments are where the call stands.
let d(x, y) = x \\ y empty d(fr, 0) ==> forbids
let d(x, y) = x \\ y empty d(0, fr) ==> allows
let x = 0 let f(x) = x empty f(fr) ==> forbids
let r = 0 let f(x) = x | r let r = fr empty f(r) ==> forbids
let d(x, y) = y \\ x let y = 0 let x = fr empty d(y, x) ==> forbids
let g(x) = x let f(x, y) = g(y) empty f(fr, 0) ==> allows
let f(x) = x let f(x) = f(x) \\ fr empty f(fr) ==> allows
let a = fr let a = 0 and f(x) = a empty f(0) ==> forbids
let a = 0 let a = fr and f(x) = a empty f(fr) ==> allows
let k(a, b) = a empty k(0, fr) ==> allows
let k(a, b) = a empty k(fr, 0) ==> forbids
# A call is that of its own function with its own arguments.
let f(x) = x ; id let a = f(fr) let b = f(0) empty b ==> allows
let f(x) = x ; id let a = f(0) let b = f(fr) empty b ==> forbids
let f(x) = x let a = f(fr) let f(x) = 0 empty f(fr) ==> allows
# Calls in recursive groups.
let f(x) = po | x ; x let rec r = f(r) irreflexive r ==> allows
let f(x) = po | fr | x ; x let rec r = f(r) irreflexive r ==> forbids
let f(x) = x ; po let rec r = fr | f(r) let rec s = f(s) empty s ==> allows
let f(x) = x ; po let rec r = f(r) let rec s = fr | f(s) empty s ==> forbids
let k(a, b) = a let rec r = k(fr, ~r) empty r ==> forbids
let f(r) = ~r let rec r = f(~fr) | r empty r ==> forbids
# fencerel keeps the po of the execution.
empty fencerel(R) ==> allows
let po = po | fr empty fencerel(R) ==> allows
let po = po | fr let fencerel(b) = (po & (_ * b)) ; po empty fencerel(R) ==> forbids
show f(x), fencerel as f empty fr ==> forbids
let r = po let f(x) = x | r let r = 0 flag ~empty (f(r) \\ 0) as kept ==> na allows kept";

/// 65,536 nodes and no more, each call replaced. Each next function is the union of two calls of the one before; of f0 to f14 the
/// last makes 65,535 nodes of one.
const NODES: &str = "f.cat: let f0(x) = x | x
let f1(x) = f0(x) | f0(x)
let f2(x) = f1(x) | f1(x)
let f3(x) = f2(x) | f2(x)
let f4(x) = f3(x) | f3(x)
let f5(x) = f4(x) | f4(x)
let f6(x) = f5(x) | f5(x)
let f7(x) = f6(x) | f6(x)
let f8(x) = f7(x) | f7(x)
let f9(x) = f8(x) | f8(x)
let f10(x) = f9(x) | f9(x)
let f11(x) = f10(x) | f10(x)
let f12(x) = f11(x) | f11(x)
let f13(x) = f12(x) | f12(x)
let f14(x) = f13(x) | f13(x)
let f15(x) = f14(x) | f14(x)
- a.cat: include \"f.cat\" empty f14(0)
- a.cat ==> 17 a.cat 1 f.cat 1
- a.cat ==> allows
- b.cat: include \"f.cat\" empty f15(0)
- b.cat ==> 69 CallsTooLarge empty
- f14.cat: let f(x) = x | x @let f(x) = f(x) | f(x) @14@
- f15.cat: let f(x) = x | x @let f(x) = f(x) | f(x) @15@
- c.cat: include \"f14.cat\" let r = f(0)
- c.cat ==> 16 c.cat 1 f14.cat 1
- d.cat: include \"f15.cat\" let r = f(0)
- d.cat ==> 69 CallsTooLarge r
- e.cat: include \"f14.cat\" let s = 0 let rec r = f(r)
- e.cat ==> 69 CallsTooLarge r
- # In all, and not each.
- g.cat: include \"f14.cat\" empty f(0) acyclic 0
- g.cat ==> 69 CallsTooLarge acyclic
- h.cat: include \"f14.cat\" let a = 0 and b = f(0) and c = 0
- h.cat ==> 69 CallsTooLarge b
- # Functions, what is shown and includes count nothing.
- i.cat: include \"f14.cat\" show f(f(0)) unshow s let g(x) = f(f(x)) include \"stdlib.cat\" empty f(0)
- i.cat ==> 19 i.cat 1 f14.cat 1 stdlib.cat 0";

/// What isn't put into a body counts nothing, and what is too much by far stays too much.
const DROPPED: &str =
    "k.cat: let k(a, b) = a let g(x) = x @let g(x) = k(0, g(x) | g(x)) @60@let f(x) = x | x @let f(x) = f(x) | f(x) @14@
- a.cat: include \"k.cat\" empty f(g(po))
- a.cat ==> 78 a.cat 1 k.cat 1
- b.cat: include \"k.cat\" empty f(g(po)) acyclic 0
- b.cat ==> 69 CallsTooLarge acyclic
- c.cat: include \"k.cat\" empty f(g(po) | po)
- c.cat ==> 69 CallsTooLarge empty
- d.cat: include \"k.cat\" empty k(f(0), f(f(0)))
- d.cat ==> 78 d.cat 1 k.cat 1
- e.cat: include \"k.cat\" empty k(0, f(f(0)))
- e.cat ==> 78 e.cat 1 k.cat 1
- l.cat: let f(x) = x | x @let f(x) = f(x) | f(x) @30@empty f(0)
- l.cat ==> 69 CallsTooLarge empty
- m.cat: let f(x) = x | x @let f(x) = f(x) | f(x) @62@empty f(0)
- m.cat ==> 69 CallsTooLarge empty
- n.cat: let f(x) = x | x @let f(x) = f(x) | f(x) @199@@let k(a, b) = a @1@
- o.cat: include \"n.cat\" empty f(0)
- o.cat ==> 69 CallsTooLarge empty
- p.cat: include \"n.cat\" empty k(0, f(0))
- p.cat ==> 202 p.cat 1 n.cat 1";

/// Bodies stand inside one another 64 deep and no deeper, those of arguments in the bodies that use them.
const DEPTHS: &str = "a.cat: let f(x) = x @let f(x) = f(x) @63@empty f(fr)
- a.cat ==> 65 a.cat 1
- a.cat ==> forbids
- b.cat: let f(x) = x @let f(x) = f(x) @64@empty f(fr)
- b.cat ==> 69 CallsTooLarge empty
- c.cat: let f(x) = x empty @f(@64@fr@)@64@
- c.cat ==> 2 c.cat 1
- c.cat ==> forbids
- d.cat: let f(x) = x let g(x) = f(x) let r = g(@f(@63@0@)@64@
- d.cat ==> 69 CallsTooLarge r
- e.cat: let f(x) = x let g(x) = f(x) let r = g(@f(@62@0@)@63@
- e.cat ==> 3 e.cat 1
- # A value that is bound stands for itself, and an argument that isn't used stands nowhere.
- g.cat: let f(x) = x let r = @f(@64@0@)@64@empty f(r)
- g.cat ==> 3 g.cat 1
- h.cat: let f(x) = x let k(a, b) = a let g(x) = k(x, @f(@63@0@)@64@let h(x) = g(x) empty h(0)
- h.cat ==> 5 h.cat 1";

/// A file of 4,000 nodes, as often as it may be included, and once more.
const LARGE: &str = "large.cat: empty 0@ | 0@1999@
- a.cat: @include \"large.cat\" @16@@empty 0 @768@
- a.cat ==> 784 a.cat 1 large.cat 1
- a.cat ==> allows
- b.cat: @include \"large.cat\" @16@@acyclic 0 @769@
- b.cat ==> 69 CallsTooLarge acyclic
- c.cat: @include \"large.cat\" @17@
- c.cat ==> 69 CallsTooLarge empty";

/// Which of several faults is told: 67, 64, 69, 65 and 66, each over a whole group.
const ORDER: &str = "f14.cat: let f(x) = x | x @let f(x) = f(x) | f(x) @14@
- f15.cat: let f(x) = x | x @let f(x) = f(x) | f(x) @15@
- a.cat: include \"f15.cat\" flag empty f(g)
- a.cat ==> 67 FlagWithoutName
- b.cat: include \"f15.cat\" let a = f(0) and b = t
- b.cat ==> 64 Unbound t
- c.cat: include \"f15.cat\" let a = f(0) and g(x) = t
- c.cat ==> 64 Unbound t
- d.cat: include \"f15.cat\" let a = W ; po and b = f(0)
- d.cat ==> 69 CallsTooLarge b
- e.cat: include \"f15.cat\" acyclic f(W)
- e.cat ==> 69 CallsTooLarge acyclic
- g.cat: include \"f15.cat\" let rec r = ~f(r)
- g.cat ==> 69 CallsTooLarge r
- # A wrong call is one node with its arguments.
- h.cat: include \"f14.cat\" empty f(f)
- h.cat ==> 65 WrongSort empty
- i.cat: include \"f14.cat\" empty f(po(0))
- i.cat ==> 69 CallsTooLarge empty
- j.cat: include \"f14.cat\" empty po(f(0))
- j.cat ==> 69 CallsTooLarge empty
- # An item that comes earlier is told first.
- l.cat: include \"f15.cat\" acyclic W empty f(0)
- l.cat ==> 65 WrongSort acyclic
- m.cat: include \"f15.cat\" empty f(0) empty t
- m.cat ==> 69 CallsTooLarge empty";

/// A function is that of the file that is included now.
const INCLUDED: &str = "base.cat: let f(x) = x | fr
- root.cat: include \"base.cat\" empty f(0)
- root.cat ==> is include \"base.cat\" empty f(0)
- root.cat ==> 2 root.cat 1 base.cat 1
- root.cat ==> forbids
- base.cat: let f(x) = x
- root.cat ==> 2 root.cat 1 base.cat 2
- root.cat ==> allows";

#[test]
fn functions(rt: HostRuntime) {
    let alloc = rt.alloc();
    all_answered(&rt, alloc, "reading", READ, read_as);
    all_hold(&rt, alloc, "resolving", RESOLVED, is_so);
    all_hold(&rt, alloc, "meanings", MEANINGS, is_so);
}

#[test]
fn files_with_functions(rt: HostRuntime) {
    let alloc = rt.alloc();
    follow(&rt, alloc, "nodes", NODES);
    follow(&rt, alloc, "dropped", DROPPED);
    follow(&rt, alloc, "depths", DEPTHS);
    follow(&rt, alloc, "a large file", LARGE);
    follow(&rt, alloc, "order", ORDER);
    follow(&rt, alloc, "included", INCLUDED);
}
