//! Clients whose edits meet. Before the rows, members 1 and 2 hold "abc".

use crate::room::plays;
use sporc_samples::Cast;

// Another's entry passes two pending edits, the first of which is on its way. That entry then
// commits what it said.
const PASSED_BY: &str = "
2 insert 3 d -> event 2
2 insert 0 < -> event 3
2 submit -> entry
1 remove 0 2 -> event 4
1 submit -> entry
1 give 2 3 -> event 6
2 give 2 3 -> event 5
2 show -> [c] [<cd]
2 give 3 2 -> event 6
2 show -> [cd] [<cd]
2 submit -> entry
2 give 4 4 -> event 8
2 show -> [<cd] [<cd]
";

// Entries examined under their author's key, and under that of another.
const EXAMINED: &str = "
1 insert 1 X -> event 4
2 insert 1 Y -> event 2
1 submit -> entry
2 submit -> entry
1 examined 2 2 2 -> good event 6
2 examined 2 2 3 -> bad event 4
1 examined 2 3 3 -> good Refused(WrongPosition)
1 examined 3 3 2 -> bad event 7
2 examined 3 3 3 -> good event 5
1 show -> [aXYbc] [aXYbc]
2 show -> [aXYbc] [aXYbc]
";

#[test]
fn edits_meet(rt: HostRuntime) {
    let cast = Cast::new(rt.alloc()).expect(&rt, "a cast");
    for rows in [PASSED_BY, EXAMINED] {
        plays(&rt, rt.alloc(), &cast, rows);
    }
}
