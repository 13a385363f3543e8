// Reads labels of every kind, and prints what comes of each and how the field list stands then.

#![tactic(auto)]

use label::Field;

// A label, and how many entries the field list has.
#[derive(Clone, Copy)]
struct Case {
    name: &'static str,
    label: &'static [u8],
    room: usize,
}

// data, each row its own case: no function could say them shorter
const CASES: [Case; 26] = [
    Case {
        name: "one field",
        label: &[3, 1, 10, 2, 0, 6, 76, 55],
        room: 3,
    },
    Case {
        name: "no field, no list",
        label: &[3, 0],
        room: 0,
    },
    Case {
        name: "no field, bytes behind the header",
        label: &[3, 0, 9, 9],
        room: 1,
    },
    Case {
        name: "identifiers 0 and 99",
        label: &[3, 2, 0, 1, 0, 10, 99, 1, 0, 10, 65],
        room: 2,
    },
    Case {
        name: "offset of 16 bits",
        label: &[3, 1, 10, 0, 1, 0],
        room: 1,
    },
    Case {
        name: "empty part at the label's end",
        label: &[3, 1, 10, 0, 0, 6],
        room: 1,
    },
    Case {
        name: "empty part past the label's end",
        label: &[3, 1, 10, 0, 0, 7],
        room: 1,
    },
    Case {
        name: "parts that overlap, identifiers that repeat",
        label: &[3, 2, 7, 3, 0, 10, 7, 2, 0, 11, 65, 66, 67],
        room: 2,
    },
    Case {
        name: "no bytes",
        label: &[],
        room: 2,
    },
    Case {
        name: "one byte",
        label: &[3],
        room: 2,
    },
    Case {
        name: "edition 2",
        label: &[2, 1, 10, 2, 0, 6, 76, 55],
        room: 2,
    },
    Case {
        name: "edition 4 and 33 entries",
        label: &[4, 33],
        room: 2,
    },
    Case {
        name: "33 entries",
        label: &[3, 33],
        room: 2,
    },
    Case {
        name: "a header cut off",
        label: &[3, 1, 10, 2, 0],
        room: 2,
    },
    Case {
        name: "32 entries, all cut off",
        label: &[3, 32],
        room: 2,
    },
    Case {
        name: "a header cut off before a list too short",
        label: &[3, 2, 10, 2, 0, 6, 76, 55],
        room: 1,
    },
    Case {
        name: "a list too short",
        label: &[3, 1, 10, 2, 0, 6, 76, 55],
        room: 0,
    },
    Case {
        name: "a list too short before an unknown identifier",
        label: &[3, 1, 100, 2, 0, 6, 76, 55],
        room: 0,
    },
    Case {
        name: "identifier 100",
        label: &[3, 1, 100, 2, 0, 6, 76, 55],
        room: 2,
    },
    Case {
        name: "identifier 255 in the second entry",
        label: &[3, 2, 10, 1, 0, 10, 255, 1, 0, 10, 65],
        room: 2,
    },
    Case {
        name: "a part past the end",
        label: &[3, 1, 10, 2, 0, 7, 76, 55],
        room: 2,
    },
    Case {
        name: "a part in the header",
        label: &[3, 1, 10, 2, 0, 5, 76, 55],
        room: 2,
    },
    Case {
        name: "a part past the end in the second entry",
        label: &[3, 2, 10, 1, 0, 10, 11, 2, 0, 10, 65],
        room: 2,
    },
    Case {
        name: "an identifier before a part of the same entry",
        label: &[3, 1, 100, 2, 0, 7, 76, 55],
        room: 2,
    },
    Case {
        name: "a part before an identifier of the next entry",
        label: &[3, 2, 10, 1, 0, 11, 100, 1, 0, 10, 65],
        room: 2,
    },
    Case {
        name: "offset 65535, length 255",
        label: &[3, 1, 10, 255, 255, 255],
        room: 2,
    },
];

// Reads a label into a list that holds 88 everywhere, so that what is written shows.
fn show(rt: &HostRuntime, case: &Case) -> anyhow::Result<()> {
    let unread = Field {
        identifier: 88,
        offset: 88,
        length: 88,
    };
    let mut list = vec![in rt.alloc(); unread; case.room]?;
    let name = case.name;
    match label::read(case.label, &mut list) {
        Ok(count) => println!(rt; "{name}: fields {count}")?,
        Err(fault) => println!(rt; "{name}: {fault}")?,
    }
    for field in list.iter() {
        println!(rt; "  {field}")?;
    }
    Ok(())
}

fn main(rt: HostRuntime) -> anyhow::Result<()> {
    for case in CASES.iter() {
        show(&rt, case)?;
    }
    Ok(())
}
