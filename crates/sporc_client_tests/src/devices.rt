//! Several devices of one member. The client at place 3 is of device 1 of member 2.

use crate::room::Room;
use sporc_member::Device;
use sporc_samples::Cast;
use std::alloc::Global;
use std::process::Abort;

// The document has devices from its Upgrade on, and one Upgrade. A device that isn't live has no
// right.
const UPGRADED: &str = "
1 device 2 1 -> event 1
1 submit -> dropped NotUpgraded
1 upgrade -> event 3
1 upgrade -> event 4
1 submit -> entry
1 give 1 1 -> event 6
2 give 1 1 -> event 1
3 give 1 1 -> event 1
1 submit -> dropped AlreadyUpgraded
3 insert 0 x -> NoRight
3 reads 2 -> NoRight
3 submit -> nothing
1 device 2 1 -> event 8
1 submit -> entry
1 give 2 2 -> event 10
2 give 2 2 -> event 2
3 give 2 2 -> event 2
1 insert 0 abc -> event 11
1 submit -> entry
1 give 3 3 -> event 13
2 give 3 3 -> event 3
3 give 3 3 -> event 3
";

// Both devices edit at once: the entry of each has the number 1, and the other's is another's,
// which its own on the way outlives.
const MEET: &str = "
2 insert 1 X -> event 4
3 insert 1 Y -> event 4
2 submit -> entry
3 submit -> entry
1 give 4 4 -> event 14
2 give 4 4 -> event 6
3 give 4 4 -> event 6
3 show -> [aXbc] [aXYbc]
3 submit -> waiting
1 give 5 5 -> event 15
2 give 5 5 -> event 7
3 give 5 5 -> event 7
1 show -> [aXYbc] [aXYbc]
2 show -> [aXYbc] [aXYbc]
3 show -> [aXYbc] [aXYbc]
1 give 6 4 -> Refused(WrongNumber)
";

// A device is dropped while its entry is on its way, which comes too late; and so does all that its
// key signs then.
const DROPPED: &str = "
3 insert 0 q -> event 4
3 submit -> entry
1 drops-device 2 1 -> event 14
1 submit -> entry
1 give 4 5 -> event 16
2 give 4 5 -> event 4
1 give 5 4 -> Refused(UnknownDevice)
2 give 5 4 -> Refused(UnknownDevice)
3 give 4 5 -> event 6
3 show -> [abc] [qabc]
3 insert 0 r -> Removed
3 submit -> Removed
3 give 5 4 -> Refused(Removed)
3 restart 3 -> back
3 insert 0 s -> event 4
3 submit -> entry
1 give 5 6 -> Refused(UnknownDevice)
2 insert 3 d -> event 5
2 submit -> entry
1 give 5 7 -> event 17
2 give 5 7 -> event 7
1 show -> [abcd] [abcd]
";

// A number isn't given twice, and a member keeps one device.
const NUMBERS: &str = "
1 drops-device 2 1 -> event 14
1 submit -> entry
1 give 4 4 -> event 16
1 device 2 1 -> event 17
1 submit -> dropped DeviceUsed
1 drops-device 2 1 -> event 19
1 submit -> dropped NoDevice
1 drops-device 2 0 -> event 21
1 submit -> dropped LastDevice
";

fn plays(rt: &impl Abort, alloc: Global, cast: &Cast, rows: &str) {
    let mut room = Room::new(rt, alloc, cast, 2);
    let device = Device {
        member: 2,
        number: 1,
    };
    room.joins(rt, alloc, cast, device);
    room.tries(rt, alloc, UPGRADED);
    room.tries(rt, alloc, rows);
}

#[test]
fn a_member_has_several_devices(rt: HostRuntime) {
    let cast = Cast::new(rt.alloc()).expect(&rt, "a cast");
    for rows in [MEET, DROPPED, NUMBERS] {
        plays(&rt, rt.alloc(), &cast, rows);
    }
}
