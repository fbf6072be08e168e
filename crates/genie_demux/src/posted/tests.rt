use super::*;

/// Six inputs of two devices, two ports and two flows.
fn six(alloc: Global) -> Result<Posted, NoMemory> {
    let mut posted = Posted::new(alloc)?;
    posted.post(0, 5, Some(8), 1);
    posted.post(0, 5, None, 2);
    posted.post(1, 5, None, 3);
    posted.post(0, 6, None, 4);
    posted.post(0, 5, Some(7), 5);
    posted.post(0, 5, None, 9);
    Ok(posted)
}

#[test]
fn matches(rt: HostRuntime) -> Result<(), NoMemory> {
    // inputs that are cancelled first; then records by device, port and flow, each with the input that it meets
    let in_order = [
        (0, 5, None, Some(2)),
        (0, 5, None, Some(9)),
        (0, 5, None, None),
        (0, 5, Some(7), Some(5)),
        (0, 5, Some(7), None),
        (0, 5, Some(8), Some(1)),
    ];
    let flows_first = [
        (0, 5, Some(7), Some(2)),
        (0, 5, Some(7), Some(5)),
        (0, 5, Some(8), Some(1)),
        (0, 5, Some(8), Some(9)),
        (0, 5, Some(8), None),
        (0, 5, None, None),
    ];
    let apart = [
        (1, 6, None, None),
        (1, 5, Some(1), Some(3)),
        (1, 5, None, None),
        (0, 6, None, Some(4)),
        (2, 5, None, None),
        (0, 5, Some(8), Some(1)),
    ];
    let cancelled = [
        (0, 5, None, Some(9)),
        (0, 5, Some(7), None),
        (1, 5, None, Some(3)),
        (0, 5, None, None),
        (0, 5, Some(8), Some(1)),
        (0, 5, Some(8), None),
    ];
    let none: &[u32] = &[];
    let middle: &[u32] = &[2, 5];
    let table: &[(&[u32], &[(u32, u16, Option<u32>, Option<u32>)])] = &[
        (none, &in_order),
        (none, &flows_first),
        (none, &apart),
        (middle, &cancelled),
    ];
    for (ids, records) in table {
        let mut posted = six(rt.alloc())?;
        assert_eq!(rt; posted.len(), 6);
        for id in *ids {
            assert_eq!(rt; posted.cancel(*id), Ok(()));
            assert_eq!(rt; posted.cancel(*id), Err(NotPosted));
        }
        for (dev, port, flow, want) in *records {
            assert_eq!(rt;
                posted.match_port(*dev, *port, *flow),
                *want,
                "{dev} {port} {flow:?}"
            );
        }
    }
    Ok(())
}
