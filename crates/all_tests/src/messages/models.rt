//! Wrong models with their messages, which were written by hand.

use crate::messages::asked::{all_are_told, told_of_model};

/// Texts that are no cat files.
const CAT: &str = "my.cat
M
let r = | po
----
my.cat:2:9: Syntax (52): | can't stand here; docs/MODELS.md has the grammar
    let r = | po
            ^
====
my.cat
M
let r =----
my.cat:2:8: Syntax (52): the file ends here, where more is wanted; docs/MODELS.md has the grammar
    let r =
           ^
====
my.cat
M
let r = po ++ rf
----
my.cat:2:12: Unsupported (53): ++ is left out; write | for a union
    let r = po ++ rf
               ^
====
my.cat
M
let f = po let rec f(x) = x
----
my.cat:2:20: Unsupported (53): f is a function of a let rec, which is left out; write it without rec, or without parameters
    let f = po let rec f(x) = x
                       ^
====
my.cat
M
with co from cos
----
my.cat:2:1: Unsupported (53): with .. from is left out; co is there beforehand, and needs no choice
    with co from cos
    ^
====
my.cat
M
acyclic (((((((((((((((((((((((((((((((((((((((((((((((((((((((((((((((((po)))))))))))))))))))))))))))))))))))))))))))))))))))))))))))))))))
----
my.cat:2:73: TooDeep (54): this would nest 65 deep, and parentheses, brackets and ~ nest at most 64; bind a part by let
    ...(((((((((((((((((((((((((((((((((((((((((((((((((((((((((((((po)))))))))))))))))))))))))))))))))))))))))))))))))))))))))...
                                                                   ^
====
my.cat
M
let r = po - rf
----
my.cat:2:12: Text (51): BadByte (2): a - stands only inside names, as in po-loc; a difference is written a \\ b
    let r = po - rf
               ^
====
my.cat
M
let r = po (* rf
----
my.cat:2:12: Text (51): OpenComment (3): this comment is never closed; (* always opens one, whatever stands before
    let r = po (* rf
               ^
====
my.cat
M
let a = po
acylic a
----
my.cat:3:1: Syntax (52): acylic can't stand here; did you mean acyclic?
    acylic a
    ^
====
my.cat
M
inclde \"a.cat\"
----
my.cat:2:1: Syntax (52): inclde can't stand here; did you mean include?
    inclde \"a.cat\"
    ^
====
my.cat
M
include \"my base.cat\"
----
my.cat:2:9: Syntax (52): \"my base.cat\" can't stand here; a quoted text is the model's title or, after include, names a file that is there: beside this one, or in a folder of -I
    include \"my base.cat\"
            ^
====
my.cat
M
let a = unshow
----
my.cat:2:9: Syntax (52): unshow can't stand here; docs/MODELS.md has the grammar
    let a = unshow
            ^
====
my.cat
M
let f = fun x -> x
----
my.cat:2:15: Text (51): BadByte (2): -> is left out, and fun with it; bind a function by let, as in let f(x) = x ; po
    let f = fun x -> x
                  ^
====
my.cat
M
$
----
my.cat:2:1: Text (51): BadByte (2): no token of a model begins with this byte; take it away
    $
    ^
";

/// Names that are bound nowhere, of the wrong sort, or denied in their own group.
const NAMES: &str = "my.cat
M
let a = po | po | po | po | po | po | po | po | po | po | po | po | po | po | po | po | po | po | po | po | po | po | po | po | po | po | po | po | po | po | po | po | po | po | po | po | po | po | po | po | po | comm | po | po | po | po | po | po | po | po | po | po | po | po | po | po | po | po | po | po | po | po | po | po | po | po | po | po | po | po | po | po
----
my.cat:2:214: Unbound (64): comm is bound nowhere before
    ...po | po | po | po | po | po | po | po | po | po | po | po | comm | po | po | po | po | po | po | po | po | po | po | po ...
                                                                   ^
====
my.cat
M
let com = rf | co
acyclic comm as c
----
my.cat:3:9: Unbound (64): comm is bound nowhere before; did you mean com?
    acyclic comm as c
            ^
====
my.cat
M
acyclic foo
----
my.cat:2:9: Unbound (64): foo is bound nowhere before
    acyclic foo
            ^
====
my.cat
M
acyclic po-locc
----
my.cat:2:9: Unbound (64): po-locc is bound nowhere before; did you mean po-loc?
    acyclic po-locc
            ^
====
my.cat
M
let f(y) = y and g(x) = y | x
----
my.cat:2:25: Unbound (64): y is bound nowhere before
    let f(y) = y and g(x) = y | x
                            ^
====
my.cat
M
let r = r
----
my.cat:2:9: Unbound (64): r is bound nowhere before
    let r = r
            ^
====
my.cat
M
include \"lib.cat\"
acyclic nope
++++
lib.cat
L
let a = po
acyclic nope as b
----
lib.cat:3:9: Unbound (64): nope is bound nowhere before
    acyclic nope as b
            ^
====
my.cat
M
acyclic po acyclic W as w
----
my.cat:2:12: WrongSort (65): at acyclic a set stands where a relation is wanted, or the other way round, or a call is wrong; [s] makes a relation of a set, domain(r) and range(r) make sets, and functions alone are called, with as many arguments as they have, as in fencerel(F)
    acyclic po acyclic W as w
               ^
====
my.cat
M
let a = po
let b = rf and r = W ; po
----
my.cat:3:16: WrongSort (65): at r a set stands where a relation is wanted, or the other way round, or a call is wrong; [s] makes a relation of a set, domain(r) and range(r) make sets, and functions alone are called, with as many arguments as they have, as in fencerel(F)
    let b = rf and r = W ; po
                   ^
====
my.cat
M
let rec r = po | (r ; ~r)
----
my.cat:2:24: NotMonotone (66): r is bound by this let rec, and may not stand under ~ or right of \\ in it
    let rec r = po | (r ; ~r)
                           ^
====
my.cat
M
let f(x) = rf \\ x
let rec r = (r ; po) | f(r)
----
my.cat:3:26: NotMonotone (66): r is bound by this let rec, and may not stand under ~ or right of \\ in it
    let rec r = (r ; po) | f(r)
                             ^
====
my.cat
M
acyclic fencerel(W, R)
----
my.cat:2:1: WrongSort (65): at acyclic a set stands where a relation is wanted, or the other way round, or a call is wrong; [s] makes a relation of a set, domain(r) and range(r) make sets, and functions alone are called, with as many arguments as they have, as in fencerel(F)
    acyclic fencerel(W, R)
    ^
====
my.cat
M
acyclic po(W)
----
my.cat:2:1: WrongSort (65): at acyclic a set stands where a relation is wanted, or the other way round, or a call is wrong; [s] makes a relation of a set, domain(r) and range(r) make sets, and functions alone are called, with as many arguments as they have, as in fencerel(F)
    acyclic po(W)
    ^
====
my.cat
M
acyclic fencerel
----
my.cat:2:1: WrongSort (65): at acyclic a set stands where a relation is wanted, or the other way round, or a call is wrong; [s] makes a relation of a set, domain(r) and range(r) make sets, and functions alone are called, with as many arguments as they have, as in fencerel(F)
    acyclic fencerel
    ^
";

/// Which use of its name a 66 is told at: the first that stands under `~` or right of `\`, with calls replaced.
const DENIED: &str = "my.cat
M
let rec r = po | (r | ~r)
----
my.cat:2:24: NotMonotone (66): r is bound by this let rec, and may not stand under ~ or right of \\ in it
    let rec r = po | (r | ~r)
                           ^
====
my.cat
M
let rec r = s | ~s and s = ~r
----
my.cat:2:18: NotMonotone (66): s is bound by this let rec, and may not stand under ~ or right of \\ in it
    let rec r = s | ~s and s = ~r
                     ^
====
my.cat
M
let rec r = po \\ (rf | s) and s = s | ~s
----
my.cat:2:24: NotMonotone (66): s is bound by this let rec, and may not stand under ~ or right of \\ in it
    let rec r = po \\ (rf | s) and s = s | ~s
                           ^
====
my.cat
M
let f(x, y, z) = ~z | (~y | ~x)
let rec r = f(s, r, s) and s = r
----
my.cat:3:15: NotMonotone (66): s is bound by this let rec, and may not stand under ~ or right of \\ in it
    let rec r = f(s, r, s) and s = r
                  ^
====
my.cat
M
let f(x, y) = x \\ y
let rec r = f(r, po) | f(po, r)
----
my.cat:3:30: NotMonotone (66): r is bound by this let rec, and may not stand under ~ or right of \\ in it
    let rec r = f(r, po) | f(po, r)
                                 ^
====
my.cat
M
let f(x) = po
let rec r = f(~r) | ~~r
----
my.cat:3:23: NotMonotone (66): r is bound by this let rec, and may not stand under ~ or right of \\ in it
    let rec r = f(~r) | ~~r
                          ^
====
my.cat
M
let f(x) = ~x
let g(y) = f(y) | po
let rec q = r
    and r = q | (r | g(po | r))
----
my.cat:5:29: NotMonotone (66): r is bound by this let rec, and may not stand under ~ or right of \\ in it
        and r = q | (r | g(po | r))
                                ^
";

/// Includes, flags and limits.
const FILES: &str = "my.cat
M
empty rmw flag empty rf
----
my.cat:2:11: FlagWithoutName (67): a flagged check wants a name, as in flag ~empty race as data-race
    empty rmw flag empty rf
              ^
====
my.cat
M
let none = po
include \"none.cat\"
----
my.cat:3:9: NoInclude (62): none.cat isn't there; put it beside the file that includes it, or name its folder by -I
    include \"none.cat\"
            ^
====
a.cat
A
include \"b.cat\"
++++
b.cat
B
let x = po
include \"a.cat\"
----
b.cat:3:9: IncludeCycle (63): a.cat includes itself, or is included by what it includes
    include \"a.cat\"
            ^
====
m0.cat
M
include \"m1.cat\"
++++
m1.cat
M
include \"m2.cat\"
++++
m2.cat
M
include \"m3.cat\"
++++
m3.cat
M
include \"m4.cat\"
++++
m4.cat
M
include \"m5.cat\"
++++
m5.cat
M
include \"m6.cat\"
++++
m6.cat
M
include \"m7.cat\"
++++
m7.cat
M
include \"m8.cat\"
++++
m8.cat
M
include \"m9.cat\"
++++
m9.cat
M
include \"m10.cat\"
++++
m10.cat
M
include \"m11.cat\"
++++
m11.cat
M
include \"m12.cat\"
++++
m12.cat
M
include \"m13.cat\"
++++
m13.cat
M
include \"m14.cat\"
++++
m14.cat
M
include \"m15.cat\"
++++
m15.cat
M
include \"m16.cat\"
++++
m16.cat
M
acyclic po
----
m15.cat:2:1: ModelTooLarge (68): here are more than 4096 items, or includes nest more than 16 deep
    include \"m16.cat\"
    ^
====
my.cat
M
let f0(x) = x | x
let f1(x) = f0(x) | f0(x)
let f2(x) = f1(x) | f1(x)
let f3(x) = f2(x) | f2(x)
let f4(x) = f3(x) | f3(x)
let f5(x) = f4(x) | f4(x)
let f6(x) = f5(x) | f5(x)
let f7(x) = f6(x) | f6(x)
let f8(x) = f7(x) | f7(x)
let f9(x) = f8(x) | f8(x)
let f10(x) = f9(x) | f9(x)
let f11(x) = f10(x) | f10(x)
let f12(x) = f11(x) | f11(x)
let f13(x) = f12(x) | f12(x)
let f14(x) = f13(x) | f13(x)
let f15(x) = f14(x) | f14(x)
empty f14(0)
empty f15(0)
----
my.cat:19:1: CallsTooLarge (69): with calls replaced by the functions' bodies there are more than 65536 nodes, or they stand more than 64 deep in one another
    empty f15(0)
    ^
";

#[test]
fn models(rt: HostRuntime) {
    let alloc = rt.alloc();
    all_are_told(&rt, alloc, "texts", CAT, told_of_model);
    all_are_told(&rt, alloc, "names", NAMES, told_of_model);
    all_are_told(&rt, alloc, "denied names", DENIED, told_of_model);
    all_are_told(&rt, alloc, "files", FILES, told_of_model);
}
