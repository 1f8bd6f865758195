//! What files are put together to.

use crate::cat::loading::{follow, is_so};
use crate::rows::all_hold;

const ONE_FILE: &str = "# Sorts and scope.
let r = po acyclic r ==> 2 main.cat 1
acyclic r let r = po ==> 64 Unbound r
acyclic W ==> 65 WrongSort acyclic
let r = W ; po ==> 65 WrongSort r
# Recursive bindings, and what need not be bound.
let rec r = W ==> 65 WrongSort r
let rec r = r flag empty r as none ==> 2 main.cat 1
let rec r = ~r ==> 66 NotMonotone r
let rec r = ~~s and s = po \\ r ==> 66 NotMonotone s
flag empty rf ==> 67 FlagWithoutName
show nothing, r as s ==> 1 main.cat 1
# Flags and includes.
flag empty (W \\ W \\ W) as left ==> 1 main.cat 1
include \"main.cat\" ==> 63 IncludeCycle main.cat
include \"none.cat\" ==> 62 NoInclude none.cat
include \"stdlib.cat\" include \"rc11.cat\" include \"stdlib.cat\" ==> 20 main.cat 1 stdlib.cat 0 rc11.cat 0
# Which of several faults is told.
flag empty r flag empty W ; r as s ==> 67 FlagWithoutName
let r = W ; po and s = t ==> 64 Unbound t
let rec r = ~s and s = W ==> 65 WrongSort s
acyclic r include \"main.cat\" ==> 63 IncludeCycle main.cat";

const BEFOREHAND: &str = "none.cat ==> 61 NoCat none.cat
- rc11.cat ==> 20 rc11.cat 0
- rc11.cat ==> rc11
- stdlib.cat ==> 0 stdlib.cat 0
- cos.cat ==> 0 cos.cat 0
- c11_cos.cat ==> 0 c11_cos.cat 0";

const VERSIONS: &str = "base.cat: let com = rf | co | fr
- sc.cat: include \"base.cat\" acyclic po | com as sc
- sc.cat ==> 2 sc.cat 1 base.cat 1
- base.cat: let com = rf | co | fr
- sc.cat ==> 2 sc.cat 1 base.cat 2";

/// A built-in file is hidden by one of its name.
const HIDDEN: &str = "rc11.cat: acyclic po
- rc11.cat ==> 1 rc11.cat 1
- rc11.cat ==> removed
- rc11.cat ==> 20 rc11.cat 2";

/// Files f1.cat to f17.cat, of which each includes the next, and what holds of the first and the second. Where the 17th file of
/// the path isn't there, or is on it already, that is told.
const CHAIN: &str = "f1.cat: include \"f2.cat\"
- f2.cat: include \"f3.cat\"
- f3.cat: include \"f4.cat\"
- f4.cat: include \"f5.cat\"
- f5.cat: include \"f6.cat\"
- f6.cat: include \"f7.cat\"
- f7.cat: include \"f8.cat\"
- f8.cat: include \"f9.cat\"
- f9.cat: include \"f10.cat\"
- f10.cat: include \"f11.cat\"
- f11.cat: include \"f12.cat\"
- f12.cat: include \"f13.cat\"
- f13.cat: include \"f14.cat\"
- f14.cat: include \"f15.cat\"
- f15.cat: include \"f16.cat\"
- f16.cat: include \"f17.cat\"
- f17.cat: empty 0
- f1.cat ==> 68 ModelTooLarge
- f2.cat ==> 16 files
- f16.cat: include \"f1.cat\"
- f1.cat ==> 63 IncludeCycle f1.cat
- f16.cat: include \"gone.cat\"
- f1.cat ==> 62 NoInclude gone.cat";

/// Some checks and two includes of a file with 2,000 checks: the root with 94 of them, and then with 95. Where the 4,097th item includes
/// what isn't there, or its own file, that is told.
const MANY_ITEMS: &str = "b.cat: @empty 0 @2000@
- root.cat: @empty 0 @94@include \"b.cat\" include \"b.cat\"
- root.cat ==> 4094 root.cat 1 b.cat 1
- root.cat: @empty 0 @95@include \"b.cat\" include \"b.cat\"
- root.cat ==> 68 ModelTooLarge
- root.cat: @empty 0 @94@include \"b.cat\" include \"b.cat\" include \"gone.cat\"
- root.cat ==> 62 NoInclude gone.cat
- root.cat: @empty 0 @94@include \"b.cat\" include \"b.cat\" include \"root.cat\"
- root.cat ==> 63 IncludeCycle root.cat";

const EACH_OTHER: &str = "one.cat: include \"two.cat\"
- two.cat: include \"one.cat\"
- one.cat ==> 63 IncludeCycle one.cat";

/// Names are listed in order of first put.
const NAMES: &str = "b.cat: empty 0
- a.cat: empty 0
- b.cat: empty 0
- b.cat ==> put b.cat 2 a.cat 1";

#[test]
fn files(rt: HostRuntime) {
    let alloc = rt.alloc();
    all_hold(&rt, alloc, "one file", ONE_FILE, is_so);
    follow(&rt, alloc, "beforehand", BEFOREHAND);
    follow(&rt, alloc, "versions", VERSIONS);
    follow(&rt, alloc, "hidden", HIDDEN);
    follow(&rt, alloc, "a chain", CHAIN);
    follow(&rt, alloc, "many items", MANY_ITEMS);
    follow(&rt, alloc, "each other", EACH_OTHER);
    follow(&rt, alloc, "names", NAMES);
}
