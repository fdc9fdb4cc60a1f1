// Tests of the reader: good files, and files damaged in each way that it refuses.
#![tactic(auto)]

#[cfg(test)]
mod tests {
    use reader::{FileFault, Kind, Listing, Reader, read_input};
    use std::alloc::Global;
    use std::process::Abort;
    use std::test::Fail;

    const EXAMPLE: [u8; 48] = [
        0x01, 1, 2, 0, // head
        0x02, 1, // accepting
        0x03, 0, 1, 1, 5, 0, // limit
        0x04, 0, 1, 1, // edge
        0x05, 1, 3, 2, 0, // guard
        0x06, // sheet end
        0x10, 0, 1, // book
        0x11, 0, 0, 1, 0, // node
        0x12, 1, 0, 0, 0, 0, // bound
        0x11, 1, 1, 1, 0, // node
        0x12, 1, 0, 0, 0, 0, // bound
        0x1f, // file end
    ];

    const STARTS: [usize; 12] = [0, 4, 6, 12, 16, 21, 22, 25, 30, 36, 41, 47];

    fn ends(
        rt: &impl Abort,
        heap: Global,
        input: &[u8],
        ending: Result<(), FileFault>,
    ) -> Result<(), Fail> {
        let listing = Listing::of(heap, input)?;
        assert_eq!(rt; listing.ending, ending);
        Ok(())
    }

    fn refused(rt: &impl Abort, heap: Global, input: &[u8], fault: FileFault) -> Result<(), Fail> {
        ends(rt, heap, input, Err(fault))
    }

    #[test]
    fn a_whole_file_gives_each_record_at_its_offset(rt: HostRuntime) -> Result<(), Fail> {
        let listing = Listing::of(rt.alloc(), &EXAMPLE)?;
        assert_eq!(rt; listing.ending, Ok(()));
        assert_eq!(rt; listing.records.len(), 12);
        for (placed, start) in listing.records.iter().zip(STARTS.iter()) {
            assert_eq!(rt; placed.offset, *start);
        }
        Ok(())
    }

    #[test]
    fn a_file_cut_anywhere_ends_inside_a_record_or_where_one_is_due(
        rt: HostRuntime,
    ) -> Result<(), Fail> {
        for len in 0..EXAMPLE.len() {
            let mut due = 0;
            for start in STARTS {
                if start <= len {
                    due = start;
                }
            }
            refused(&rt, rt.alloc(), &EXAMPLE[0..len], FileFault::Truncated(due))?;
        }
        Ok(())
    }

    #[test]
    fn any_byte_after_the_end_is_out_of_place(rt: HostRuntime) -> Result<(), Fail> {
        for byte in 0..=255u8 {
            let mut input = Vec::from_slice(rt.alloc(), &EXAMPLE)?;
            input.push(byte)?;
            refused(&rt, rt.alloc(), input.as_slice(), FileFault::OutOfPlace(48))?;
        }
        Ok(())
    }

    #[test]
    fn a_first_byte_is_unknown_or_out_of_place_unless_it_begins_a_head(
        rt: HostRuntime,
    ) -> Result<(), Fail> {
        for byte in 0..=255u8 {
            let input = [byte, 0, 0, 0, 0, 0];
            let fault = match Kind::try_from(byte) {
                Err(_) => FileFault::UnknownKind(0),
                Ok(Kind::Head) => FileFault::UnknownKind(4),
                Ok(_) => FileFault::OutOfPlace(0),
            };
            refused(&rt, rt.alloc(), &input, fault)?;
        }
        Ok(())
    }

    #[test]
    fn a_cut_record_is_refused_for_the_cut_before_its_place(rt: HostRuntime) -> Result<(), Fail> {
        refused(&rt, rt.alloc(), &[0x05, 1, 3, 2], FileFault::Truncated(0))?;
        refused(
            &rt,
            rt.alloc(),
            &[0x05, 1, 3, 2, 0],
            FileFault::OutOfPlace(0),
        )
    }

    #[test]
    fn records_out_of_place_are_refused_at_their_offset(rt: HostRuntime) -> Result<(), Fail> {
        let heap = rt.alloc();
        // A second head.
        refused(
            &rt,
            heap,
            &[0x01, 1, 1, 0, 0x01, 1, 1, 0],
            FileFault::OutOfPlace(4),
        )?;
        // A guard before any edge; a limit does not count as one.
        refused(
            &rt,
            heap,
            &[0x01, 1, 1, 0, 0x05, 1, 0, 0, 0],
            FileFault::OutOfPlace(4),
        )?;
        refused(
            &rt,
            heap,
            &[0x01, 1, 1, 0, 0x03, 0, 1, 1, 5, 0, 0x05, 1, 0, 0, 0],
            FileFault::OutOfPlace(10),
        )?;
        // A book, a node or the file's end before the sheet's end.
        refused(
            &rt,
            heap,
            &[0x01, 1, 1, 0, 0x10, 0, 0],
            FileFault::OutOfPlace(4),
        )?;
        refused(
            &rt,
            heap,
            &[0x01, 1, 1, 0, 0x11, 0, 0, 0, 0],
            FileFault::OutOfPlace(4),
        )?;
        refused(&rt, heap, &[0x01, 1, 1, 0, 0x1f], FileFault::OutOfPlace(4))?;
        // An edge, a second sheet end, a node or the file's end before the book.
        refused(
            &rt,
            heap,
            &[0x01, 1, 1, 0, 0x06, 0x04, 0, 0, 0],
            FileFault::OutOfPlace(5),
        )?;
        refused(
            &rt,
            heap,
            &[0x01, 1, 1, 0, 0x06, 0x06],
            FileFault::OutOfPlace(5),
        )?;
        refused(
            &rt,
            heap,
            &[0x01, 1, 1, 0, 0x06, 0x11, 0, 0, 0, 0],
            FileFault::OutOfPlace(5),
        )?;
        refused(
            &rt,
            heap,
            &[0x01, 1, 1, 0, 0x06, 0x1f],
            FileFault::OutOfPlace(5),
        )?;
        // A second book, and a bound before any node.
        refused(
            &rt,
            heap,
            &[0x01, 1, 1, 0, 0x06, 0x10, 0, 0, 0x10, 0, 0],
            FileFault::OutOfPlace(8),
        )?;
        refused(
            &rt,
            heap,
            &[0x01, 1, 1, 0, 0x06, 0x10, 0, 0, 0x12, 1, 0, 0, 0, 0],
            FileFault::OutOfPlace(8),
        )
    }

    #[test]
    fn a_file_without_nodes_and_a_guard_behind_a_limit_are_in_order(
        rt: HostRuntime,
    ) -> Result<(), Fail> {
        let heap = rt.alloc();
        ends(&rt, heap, &[0x01, 1, 1, 0, 0x06, 0x10, 0, 0, 0x1f], Ok(()))?;
        ends(
            &rt,
            heap,
            &[
                0x01, 1, 1, 0, 0x04, 0, 0, 0, 0x03, 0, 1, 1, 5, 0, 0x02, 0, 0x05, 1, 0, 0, 0, 0x06,
                0x10, 0, 0, 0x1f,
            ],
            Ok(()),
        )
    }

    #[test]
    fn the_longest_file_is_read_to_its_end_and_a_longer_one_refused_first(
        rt: HostRuntime,
    ) -> Result<(), Fail> {
        let heap = rt.alloc();
        let mut input = Vec::from_slice(heap, &[0x01, 1, 1, 0])?;
        for _ in 0..32_763u16 {
            input.extend_from_slice(&[0x02, 0])?;
        }
        input.extend_from_slice(&[0x06, 0x10, 0, 0, 0x1f])?;
        assert_eq!(rt; input.len(), 65_535);
        ends(&rt, heap, input.as_slice(), Ok(()))?;
        input.push(0)?;
        refused(&rt, heap, input.as_slice(), FileFault::TooLong)
    }

    #[test]
    fn a_source_is_read_whole_or_one_byte_past_the_longest_file(
        rt: HostRuntime,
    ) -> Result<(), Fail> {
        let heap = rt.alloc();
        let whole = read_input(heap, EXAMPLE.as_slice())?;
        assert!(rt; whole.as_slice() == EXAMPLE.as_slice());
        let mut long = Vec::new(heap);
        for i in 0..70_000u32 {
            long.push((i % 251) as u8)?;
        }
        let front = read_input(heap, long.as_slice())?;
        long.truncate(65_536);
        assert_eq!(rt; front.len(), 65_536);
        assert!(rt; front.as_slice() == long.as_slice());
        refused(&rt, heap, front.as_slice(), FileFault::TooLong)
    }

    #[test]
    fn a_refusal_leaves_the_reader_where_it_was(rt: HostRuntime) {
        let mut reader = Reader::new(&[0x01, 1, 1, 0, 0x07]);
        assert!(rt; reader.next().is_ok());
        assert_eq!(rt; reader.offset(), 4);
        assert!(rt; reader.next().is_err());
        assert_eq!(rt; reader.offset(), 4);
        assert!(rt; reader.next().is_err());
    }
}
