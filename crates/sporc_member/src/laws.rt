//! What holds of members.

ghost use Rattle.std.specs.Prelude.{◌≡◌, Bool, List, None, true};
ghost use Rattle.std.specs.List.{list_any};
ghost use Rattle.sporc_member.specs.declared.device.TheConstants.{FIRST_DEVICE};
ghost use Rattle.sporc_member.specs.Histories.{IsHistory};
ghost use Rattle.sporc_member.specs.People.{CanRestore, people_of, roster_of_people};
ghost use Rattle.sporc_member.specs.Roster.{key_of, removes, roster_after};
ghost use Rattle.sporc_member.specs.declared.change.Change.{Change};
ghost use Rattle.sporc_member.specs.declared.device.Device.{Device};
ghost use Rattle.sporc_member.specs.declared.founder.Founder.{Founder};
ghost use Rattle.sporc_member.specs.declared.people.Person.{Person};
ghost use Rattle.sporc_member.specs.declared.limits.TheConstants.{MAX_DEVICES, MAX_MEMBERS};

/// The limits on members and their devices, and the number of a first device.
pub fn limits()
    ensures members { MAX_MEMBERS ≡ 64 }
    ensures devices { MAX_DEVICES ≡ 8 }
    ensures first { FIRST_DEVICE ≡ 0 }
{}

/// A device that a change removes, or whose member it removes, is live never again.
pub fn gone_for_good()
    ensures value { (founders : List Founder) (changes : List Change) (device : Device)
        → IsHistory founders changes → list_any (removes device) changes ≡ true
        → key_of (roster_after founders changes) device ≡ None }
{}

/// People and their roster give each other back.
pub fn people_and_roster()
    ensures people { (people : List Person) (upgraded : Bool) → CanRestore people
        → people_of (roster_of_people people upgraded) ≡ people }
    ensures roster { (founders : List Founder) (changes : List Change)
        → IsHistory founders changes
        → roster_of_people (people_of (roster_after founders changes))
        (roster_after founders changes).upgraded ≡ roster_after founders changes }
{}
