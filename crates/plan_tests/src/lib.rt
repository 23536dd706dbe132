// Tests of the readers on tables of texts: each refusal at its line, each limit at and past its edge, and a manifest as Ninja's generators write them.
#![tactic(auto)]

#[cfg(test)]
mod tests {
    use listing::{Row, read_listing};
    use manifest::{Rule, Statement, read_manifest};
    use std::alloc::Global;
    use std::test::Fail;
    use terms::{Place, Refusal};

    const NOWHERE: Place = Place {
        start: 0,
        length: 0,
    };

    // How many rules, rules that keep deps, statements and words were read.
    #[derive(Clone, Copy, PartialEq, Eq, Debug)]
    struct Counts {
        rules: usize,
        keeping: usize,
        statements: usize,
        words: usize,
    }

    fn tally(
        rules: usize,
        keeping: usize,
        statements: usize,
        words: usize,
    ) -> Result<Counts, Refusal> {
        Ok(Counts {
            rules,
            keeping,
            statements,
            words,
        })
    }

    fn counted(text: &[u8]) -> Result<Counts, Refusal> {
        let mut rules = [Rule {
            name: NOWHERE,
            keeps: false,
        }; 64];
        let mut statements = [Statement {
            line: 0,
            rule: 0,
            first: 0,
            outputs: 0,
            plain: 0,
            implicit: 0,
            order: 0,
        }; 128];
        let mut words = [NOWHERE; 5120];
        let read = read_manifest(text, &mut rules, &mut statements, &mut words)?;
        Ok(Counts {
            rules: read.rules.len(),
            keeping: read.rules.iter().filter(|rule| rule.keeps).count(),
            statements: read.statements.len(),
            words: read.words.len(),
        })
    }

    fn listed(text: &[u8]) -> Result<usize, Refusal> {
        let mut rows = [Row {
            name: NOWHERE,
            mtime: 0,
        }; 512];
        let read = read_listing(text, &mut rows)?;
        Ok(read.rows.len())
    }

    // A manifest, and what it says.
    const MANIFESTS: [(&[u8], Result<Counts, Refusal>); 24] = [
        (
            b"",
            Ok(Counts {
                rules: 0,
                keeping: 0,
                statements: 0,
                words: 0,
            }),
        ),
        (
            b"\n   \n# rule\ndefault\x01\n",
            Ok(Counts {
                rules: 0,
                keeping: 0,
                statements: 0,
                words: 0,
            }),
        ),
        (
            b"rule cc\n  deps = gcc\nbuild a.o: cc a.c\nbuild b.o: cc a.o || maps\n",
            Ok(Counts {
                rules: 1,
                keeping: 1,
                statements: 2,
                words: 5,
            }),
        ),
        (
            b"rule cc\n command = $cc -c\n deps = gcc \n depfile=\nbuild a: cc",
            Ok(Counts {
                rules: 1,
                keeping: 0,
                statements: 1,
                words: 1,
            }),
        ),
        (
            b"rule $:$ $$\nbuild x:$:$ $$ a|b||c",
            Ok(Counts {
                rules: 1,
                keeping: 0,
                statements: 1,
                words: 4,
            }),
        ),
        (
            b"rule a\nbuild b:a|c\n \x01 what\n",
            Ok(Counts {
                rules: 1,
                keeping: 0,
                statements: 1,
                words: 2,
            }),
        ),
        (b"rule a\nrule", Err(Refusal::ManifestLine(2))),
        (b"rule a b", Err(Refusal::ManifestLine(1))),
        (b"rule a\nbuild : a", Err(Refusal::ManifestLine(2))),
        (b"rule a\nbuild b a", Err(Refusal::ManifestLine(2))),
        (
            b"rule a\nbuild b: a c || d | e",
            Err(Refusal::ManifestLine(2)),
        ),
        (
            b"rule a\nbuild b: a c | d | e",
            Err(Refusal::ManifestLine(2)),
        ),
        (b"rule a\nbuild b: a c$d", Err(Refusal::ManifestLine(2))),
        (b"rule a\nbuild b: a c$", Err(Refusal::ManifestLine(2))),
        (b"rule a\n\n\nbuild b:\ta", Err(Refusal::ManifestLine(4))),
        (b"  deps = gcc", Err(Refusal::ManifestLine(1))),
        (b"rule a\n  = gcc", Err(Refusal::ManifestLine(2))),
        (b"rule a\n  deps\tx = gcc", Err(Refusal::ManifestLine(2))),
        (b"cc = gcc", Err(Refusal::ManifestLine(1))),
        (b"rule a\nrule a", Err(Refusal::RuleDeclared(2))),
        (b"build b: phony", Err(Refusal::RuleDeclared(1))),
        (b"rule a\nbuild b c b: a", Err(Refusal::MadeTwice(2))),
        (
            b"rule a\nbuild b: a\nbuild c b: a",
            Err(Refusal::MadeTwice(3)),
        ),
        (
            b"rule a\nbuild $:$ : a\nbuild c $:$ : a",
            Err(Refusal::MadeTwice(3)),
        ),
    ];

    #[test]
    fn manifest_lines(rt: HostRuntime) {
        for (text, expected) in MANIFESTS {
            assert_eq!(rt; counted(text), expected);
        }
    }

    // A manifest as a generator writes it, but for its commands.
    #[test]
    fn generated(rt: HostRuntime) {
        let text =
            b"# generated\nrule CXX_COMPILER__hello\n  depfile = $DEP_FILE\n  deps = gcc\n  command = c++ $in -o $out\n\nrule LINK\n  command = c++ $in -o $out\n  restat = 1\n\n#####\nbuild cmake_object_order: LINK || .\nbuild CMakeFiles/hello.dir/main.cc.o: CXX_COMPILER__hello /src/main.cc || cmake_object_order\n  DEP_FILE = CMakeFiles/hello.dir/main.cc.o.d\nbuild hello: LINK CMakeFiles/hello.dir/main.cc.o | /lib/libm.a\n  TARGET_FILE = hello\ndefault hello\n";
        assert_eq!(rt; counted(text), tally(2, 1, 3, 8));
    }

    // `rule r`, and a build line with so many outputs and inputs, and a name so long.
    fn one_line(
        heap: Global,
        outputs: u8,
        inputs: u8,
        name: usize,
    ) -> Result<Result<Counts, Refusal>, Fail> {
        let mut text = Vec::new(heap);
        text.extend_from_slice(b"rule r\nbuild")?;
        for k in 0..outputs {
            text.extend_from_slice(&[b' ', b'o', k | 128])?;
        }
        text.extend_from_slice(b": r ")?;
        for _ in 0..name {
            text.push(b'n')?;
        }
        for k in 0..inputs {
            text.extend_from_slice(&[b' ', b'i', k | 128])?;
        }
        Ok(counted(&text))
    }

    #[test]
    fn line_limits(rt: HostRuntime) -> Result<(), Fail> {
        let cases: [(u8, u8, usize, Result<Counts, Refusal>); 6] = [
            (8, 32, 0, tally(1, 0, 1, 40)),
            (9, 0, 0, Err(Refusal::PastLimit(2))),
            (1, 33, 0, Err(Refusal::PastLimit(2))),
            (1, 31, 120, tally(1, 0, 1, 33)),
            (1, 0, 121, Err(Refusal::PastLimit(2))),
            (1, 32, 1, Err(Refusal::PastLimit(2))),
        ];
        for (outputs, inputs, name, expected) in cases {
            assert_eq!(rt; one_line(rt.alloc(), outputs, inputs, name)?, expected);
        }
        Ok(())
    }

    // So many lines of a text, a byte and its number apart.
    fn lines(
        heap: Global,
        first: &[u8],
        count: u8,
        before: &[u8],
        behind: &[u8],
    ) -> Result<Vec<u8>, Fail> {
        let mut text = Vec::new(heap);
        text.extend_from_slice(first)?;
        for k in 0..count {
            text.extend_from_slice(before)?;
            text.extend_from_slice(&[b'A' + k / 16, b'A' + k % 16])?;
            text.extend_from_slice(behind)?;
        }
        Ok(text)
    }

    #[test]
    fn many_lines(rt: HostRuntime) -> Result<(), Fail> {
        assert_eq!(rt;
            counted(&lines(rt.alloc(), b"", 64, b"rule ", b"\n")?),
            tally(64, 0, 0, 0)
        );
        assert_eq!(rt;
            counted(&lines(rt.alloc(), b"", 65, b"rule ", b"\n")?),
            Err(Refusal::PastLimit(65))
        );
        assert_eq!(rt;
            counted(&lines(rt.alloc(), b"rule r\n", 128, b"build ", b": r\n")?),
            tally(1, 0, 128, 128)
        );
        assert_eq!(rt;
            counted(&lines(rt.alloc(), b"rule r\n", 129, b"build ", b": r\n")?),
            Err(Refusal::PastLimit(130))
        );
        Ok(())
    }

    #[test]
    fn listing_lines(rt: HostRuntime) -> Result<(), Fail> {
        let cases: [(&[u8], Result<usize, Refusal>); 11] = [
            (b"", Ok(0)),
            (b"5 a.c\n8 ab.h\n7 a.o", Ok(3)),
            (b"9223372036854775807  a b\n", Ok(1)),
            (b"9223372036854775808 a\n", Err(Refusal::ListingLine(1))),
            (b"1 a\n\n", Err(Refusal::ListingLine(2))),
            (b"0 a", Err(Refusal::ListingLine(1))),
            (b"01 a", Err(Refusal::ListingLine(1))),
            (b"1\ta", Err(Refusal::ListingLine(1))),
            (b"1 ", Err(Refusal::ListingLine(1))),
            (b"1 a\0", Err(Refusal::ListingLine(1))),
            (b"1 a\n2 b\n3 a", Err(Refusal::ListingLine(3))),
        ];
        for (text, expected) in cases {
            assert_eq!(rt; listed(text), expected);
        }
        let mut text = lines(rt.alloc(), b"", 255, b"1 a", b"\n")?;
        text.extend_from_slice(&lines(rt.alloc(), b"", 255, b"1 b", b"\n")?)?;
        text.extend_from_slice(b"1 c\n1 d\n")?;
        assert_eq!(rt; listed(&text), Ok(512));
        text.extend_from_slice(b"1 e")?;
        assert_eq!(rt; listed(&text), Err(Refusal::PastLimit(513)));
        Ok(())
    }
}
