// A file's records, by themselves and behind those of a vector.
use reader::{FileFault, FileRefusal, Kind, ListFault, Record, list, list_into};

// The later records stand behind the earlier ones, and a refused file leaves none, not even of its good lines.
#[test]
fn lists(rt: HostRuntime) -> Result<(), ListFault> {
    let mut records = list(rt.alloc(), Kind::Arcs, b"from,to\n0,1\n1,5\nend,2\n")?;
    assert_eq!(rt; records.len(), 2);
    assert_eq!(rt; records[0], Record::Arc { from: 0, to: 1 });
    assert_eq!(rt; records[1], Record::Arc { from: 1, to: 5 });
    list_into(Kind::Delays, b"ticks,arc\n-7,3\nend,1\n", &mut records)?;
    assert_eq!(rt; records.len(), 3);
    assert_eq!(rt; records[1], Record::Arc { from: 1, to: 5 });
    assert_eq!(rt; records[2], Record::Delay { arc: 3, ticks: -7 });
    let refusal = FileRefusal {
        fault: FileFault::EndWrong,
        line: 3,
    };
    assert_eq!(rt;
        list_into(Kind::Arcs, b"from,to\n7,8\nend,9\n", &mut records),
        Err(ListFault::File(refusal))
    );
    assert_eq!(rt; records.len(), 3);
    Ok(())
}
