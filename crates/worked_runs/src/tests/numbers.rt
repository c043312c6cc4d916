//! The numbers that the program ends with.
use lif_top::{CodeRefusal, NetWhy, Status, TwinWhy};
use net_model::{LinkList, Side};
use net_reader::ReadRefusal;
use std::alloc::Global;

// Each status with its number.
fn numbers(alloc: Global) -> [(Status, u8); 22] {
    let cycle = LinkList::of(Vec::new(alloc));
    let side = Side::of(Vec::new(alloc));
    let unmet = Side::of(Vec::new(alloc));
    [
        (Status::Done, 0),
        (Status::Usage, 2),
        (Status::NetRefused(NetWhy::Text(ReadRefusal::NoSource)), 3),
        (Status::NetRefused(NetWhy::Cycle(cycle)), 3),
        (Status::ZeroRate { demand: 0, side }, 4),
        (Status::TooManyDemands { count: 65537 }, 5),
        (
            Status::RateOver {
                demand: 0,
                least: 33,
            },
            6,
        ),
        (Status::CodeRefused(CodeRefusal::BadMagic), 7),
        (
            Status::CodeRefused(CodeRefusal::TrailingBytes { at: 37 }),
            7,
        ),
        (
            Status::CheckFailed {
                demand: 1,
                row: 0,
                column: 1,
                found: 3,
            },
            8,
        ),
        (Status::UnknownPattern, 9),
        (Status::ReadFault, 10),
        (Status::WriteFault, 11),
        (Status::TooLong, 12),
        (Status::OutOfMemory, 13),
        (Status::SamePath, 14),
        (Status::LinkFault, 15),
        (
            Status::RateUnmet {
                demand: 1,
                side: unmet,
                least: 2,
            },
            16,
        ),
        (Status::TwinRefused(TwinWhy::UnknownSecond), 22),
        (Status::TwinRefused(TwinWhy::NameTaken), 22),
        (Status::TwinRefused(TwinWhy::TooMany), 22),
        (Status::BadSplit { rate: 2 }, 23),
    ]
}

// The number of the first status that has another.
fn first_wrong(numbers: &[(Status, u8)]) -> Option<u8> {
    for (status, number) in numbers {
        if status.code() != *number {
            return Some(*number);
        }
    }
    None
}

#[test]
fn each_status_has_its_number(rt: HostRuntime) {
    let wrong = first_wrong(&numbers(rt.alloc()));
    assert!(rt; wrong.is_none(), "{wrong:?}");
}
