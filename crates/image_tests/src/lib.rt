// Tests of the image on tables of bytes: each cause, each limit at and past its edge, and the shortest images.
#![tactic(auto)]

#[cfg(test)]
mod tests {
    use examples::first_log;
    use image::{Cause, DepsTable, Filled, write_header};
    use std::alloc::Global;
    use std::test::Fail;
    use terms::{At, Refusal};

    // So many good records, of so many bytes with the header, and then a bad one.
    fn tail(records: usize, offset: usize, cause: Cause) -> Filled {
        Filled {
            records,
            length: offset,
            tail: Some(At {
                offset,
                value: cause,
            }),
        }
    }

    fn whole(records: usize, length: usize) -> Filled {
        Filled {
            records,
            length,
            tail: None,
        }
    }

    // What filling a table from the header and these bytes answers.
    fn filled(heap: Global, behind: &[u8]) -> Result<Result<Filled, Refusal>, Fail> {
        let mut header = [0; 16];
        write_header(&mut header)?;
        let mut image = Vec::new(heap);
        image.extend_from_slice(&header)?;
        image.extend_from_slice(behind)?;
        let mut table = DepsTable::new(heap)?;
        Ok(table.fill(&image))
    }

    // A path record of a name that is one byte many times, between two others that count.
    fn push_path(image: &mut Vec<u8>, id: u32, len: u32) -> Result<(), Fail> {
        let padded = len.saturating_add(3) / 4 * 4;
        image.extend_from_slice(&padded.saturating_add(4).to_le_bytes())?;
        for k in 0..padded {
            let byte = match k {
                0 => (id % 128) as u8 | 128,
                1 => (id / 128 % 128) as u8 | 128,
                _ => b'n',
            };
            image.push(if k < len { byte } else { 0 })?;
        }
        image.extend_from_slice(&(u32::MAX - id).to_le_bytes())?;
        Ok(())
    }

    fn push_deps(image: &mut Vec<u8>, inputs: u32) -> Result<(), Fail> {
        let size = inputs.saturating_mul(4).saturating_add(12);
        image.extend_from_slice(&(size | 0x8000_0000).to_le_bytes())?;
        image.extend_from_slice(&[0; 12])?;
        for _ in 0..inputs {
            image.extend_from_slice(&[0; 4])?;
        }
        Ok(())
    }

    #[test]
    fn causes(rt: HostRuntime) -> Result<(), Fail> {
        let cases: [(&[u8], Cause); 12] = [
            (b"\x08\0\0", Cause::NoWord),
            (b"\x08\0\0\0a\0\0\0\xff\xff\xff", Cause::TooLong),
            (b"\x0c\0\0\x80\0\0\0\0\0\0\0\0\0\0\0", Cause::TooLong),
            (b"\x0a\0\0\0abcd\0\0\xff\xff\xff\xff", Cause::BadSize),
            (b"\x04\0\0\0\xff\xff\xff\xff", Cause::BadSize),
            (b"\x08\0\0\x80\0\0\0\0\0\0\0\0", Cause::BadSize),
            (b"\x08\0\0\0a\0\0\0\xfe\xff\xff\xff", Cause::BadChecksum),
            (b"\x08\0\0\0a\0b\0\xff\xff\xff\xff", Cause::BadName),
            (b"\x08\0\0\0\0\0\0\0\xff\xff\xff\xff", Cause::BadName),
            (b"\x0c\0\0\0abcd\0\0\0\0\xff\xff\xff\xff", Cause::BadName),
            (b"\x0c\0\0\x80\0\0\0\0\0\0\0\0\0\0\0\0", Cause::UnknownId),
            (
                b"\x10\0\0\x80\0\0\0\0\0\0\0\0\0\0\0\0\0\0\0\0",
                Cause::UnknownId,
            ),
        ];
        for (bytes, cause) in cases {
            assert_eq!(rt; filled(rt.alloc(), bytes)?, Ok(tail(0, 16, cause)));
        }
        Ok(())
    }

    #[test]
    fn behind_a_path(rt: HostRuntime) -> Result<(), Fail> {
        let cases: [(&[u8], Filled); 4] = [
            (
                b"\x08\0\0\0a\0\0\0\xff\xff\xff\xff\x08\0\0\0a\0\0\0\xfe\xff\xff\xff",
                tail(1, 28, Cause::BadName),
            ),
            (
                b"\x08\0\0\0a\0\0\0\xff\xff\xff\xff\x0c\0\0\x80\x01\0\0\0\0\0\0\0\0\0\0\0",
                tail(1, 28, Cause::UnknownId),
            ),
            (
                b"\x08\0\0\0a\0\0\0\xff\xff\xff\xff\x10\0\0\x80\0\0\0\0\0\0\0\0\0\0\0\0\x01\0\0\0",
                tail(1, 28, Cause::UnknownId),
            ),
            (
                b"\x08\0\0\0a\0\0\0\xff\xff\xff\xff\x10\0\0\x80\0\0\0\0\0\0\0\0\0\0\0\0\0\0\0\0",
                whole(2, 48),
            ),
        ];
        for (bytes, expected) in cases {
            assert_eq!(rt; filled(rt.alloc(), bytes)?, Ok(expected));
        }
        Ok(())
    }

    #[test]
    fn short_images(rt: HostRuntime) -> Result<(), Fail> {
        let log = first_log();
        let cases: [(&[u8], Result<Filled, Refusal>); 6] = [
            (b"", Ok(whole(0, 16))),
            (b"# ninjadeps\n\x04\0\0\0", Ok(whole(0, 16))),
            (b"# ninjadeps\n\x04\0\0", Err(Refusal::NoHeader)),
            (b"# ninjadeps\n\x03\0\0\0", Err(Refusal::NoHeader)),
            (&log, Ok(whole(4, 76))),
            (&log[0..75], Ok(tail(3, 52, Cause::TooLong))),
        ];
        let mut table = DepsTable::new(rt.alloc())?;
        for (bytes, expected) in cases {
            assert_eq!(rt; table.fill(bytes), expected);
        }
        Ok(())
    }

    #[test]
    fn limits(rt: HostRuntime) -> Result<(), Fail> {
        let mut names = Vec::new(rt.alloc());
        push_path(&mut names, 0, 120)?;
        assert_eq!(rt; filled(rt.alloc(), &names)?, Ok(whole(1, 144)));
        push_path(&mut names, 1, 121)?;
        assert_eq!(rt; filled(rt.alloc(), &names)?, Err(Refusal::OverLimit(144)));
        let mut inputs = Vec::new(rt.alloc());
        push_path(&mut inputs, 0, 4)?;
        push_deps(&mut inputs, 64)?;
        assert_eq!(rt; filled(rt.alloc(), &inputs)?, Ok(whole(2, 300)));
        push_deps(&mut inputs, 65)?;
        assert_eq!(rt; filled(rt.alloc(), &inputs)?, Err(Refusal::OverLimit(300)));
        let mut paths = Vec::new(rt.alloc());
        for id in 0..256 {
            push_path(&mut paths, id, 4)?;
        }
        assert_eq!(rt; filled(rt.alloc(), &paths)?, Ok(whole(256, 3088)));
        push_path(&mut paths, 256, 4)?;
        assert_eq!(rt; filled(rt.alloc(), &paths)?, Err(Refusal::OverLimit(3088)));
        Ok(())
    }
}
