//! Worked examples of the calls on whole messages: one that comes back, and as tests each refusal, each edge value, and what is left afterwards.
#![tactic(auto)]

mod back;

pub use back::came_back;

#[cfg(test)]
mod tests {
    use crate::came_back;
    use functions::{FieldRule, FilledTable, FromKey, GivenTable, LazyTable, PrintedTable};
    use link::{Answer, Issuer, Nonce, ReadySealer, Receiver, Verdict};
    use message::{LONGEST, open, seal};
    use sss::{Coefficient, Fault, KeyedFunction};
    use std::alloc::Global;
    use std::process::Abort;
    use std::test::Fail;

    // The letters of "Futsambo".
    const KEY: [u8; 8] = [0x46, 0x75, 0x74, 0x73, 0x61, 0x6D, 0x62, 0x6F];

    const RUN: u32 = 1207;

    // What each buffer is filled with before a call.
    const FOUND: u8 = 0xA5;

    /// A sealed message, with what was sealed.
    #[derive(Clone, Copy)]
    struct Message<'a> {
        nonce: &'a [u8],
        masks: &'a [u8],
        plain: &'a [u8],
        wire: &'a [u8],
        tag: [u8; 16],
    }

    impl Message<'_> {
        fn seal_into<K: KeyedFunction, C: Coefficient>(
            &self,
            f: &mut K,
            a: &C,
            nonce: Nonce,
            output: &mut [u8],
            tag: &mut [u8],
        ) -> Result<(), Fault> {
            seal(f, a, nonce, self.masks, self.plain, output, tag)
        }

        fn open_into<K: KeyedFunction, C: Coefficient>(
            &self,
            f: &mut K,
            a: &C,
            output: &mut [u8],
        ) -> Result<(), Fault> {
            open(f, a, self.nonce, self.masks, self.wire, output, &self.tag)
        }
    }

    // The messages below were sealed by the program in `reference/`, which another author wrote: its command `seal` was given this key, the
    // nonce, the masks and the plaintext, and printed the wire bytes and the tag. Its command `open` says of each of them, and of each altered
    // message in the tests, what the tests say.

    // Of run 1207, message 0: twelve words, of which some are sealed, some open, and some sealed in part.
    const MASKS: [u8; 24] = [
        0xFF, 0xFF, 0xFF, 0xFF, 0x00, 0x00, 0xF0, 0x0F, 0xFF, 0xFF, 0x00, 0x00, 0xFF, 0x00, 0x00,
        0xFF, 0xFF, 0xFF, 0x01, 0x80, 0x00, 0x00, 0xFF, 0xFF,
    ];

    const PLAIN: [u8; 24] = [
        0x23, 0x01, 0x67, 0x45, 0xAB, 0x89, 0xEF, 0xCD, 0x00, 0x00, 0xFF, 0xFF, 0x34, 0x12, 0x78,
        0x56, 0xBC, 0x9A, 0xF0, 0xDE, 0x00, 0x80, 0xFF, 0x7F,
    ];

    const WIRE: [u8; 24] = [
        0xB4, 0xC4, 0x72, 0x93, 0xAB, 0x89, 0x0F, 0xCB, 0xB5, 0xDB, 0xFF, 0xFF, 0x1F, 0x12, 0x78,
        0xBB, 0x80, 0x4E, 0xF0, 0xDE, 0x00, 0x80, 0xC2, 0x87,
    ];

    const TAG: [u8; 16] = [
        0x03, 0x82, 0x21, 0xD7, 0xEB, 0xA6, 0x82, 0x24, 0xDE, 0x2B, 0x67, 0xC1, 0x79, 0x78, 0xAE,
        0x6F,
    ];

    const TWELVE: Message = Message {
        nonce: &[0xB7, 0x04, 0, 0, 0, 0],
        masks: &MASKS,
        plain: &PLAIN,
        wire: &WIRE,
        tag: TAG,
    };

    // Of run 1207, message 0 too: a sealed, an open and a part word. This is the example in `docs/MESSAGES.md`.
    const THREE: Message = Message {
        nonce: &[0xB7, 0x04, 0, 0, 0, 0],
        masks: &[0xFF, 0xFF, 0x00, 0x00, 0xFF, 0x0F],
        plain: &[0xAC, 0x03, 0xD0, 0x07, 0xD1, 0x03],
        wire: &[0x3B, 0xC6, 0xD0, 0x07, 0x06, 0x0C],
        tag: [
            0xBF, 0x1F, 0xFA, 0xE0, 0xB1, 0x7C, 0xB0, 0x46, 0x04, 0x01, 0x45, 0x1D, 0x97, 0x8A,
            0xD3, 0x55,
        ],
    };

    // Of run 1207, message 1: one sealed word.
    const ONE: Message = Message {
        nonce: &[0xB7, 0x04, 0, 0, 1, 0],
        masks: &[0xFF, 0xFF],
        plain: &[0x34, 0x12],
        wire: &[0x80, 0x0E],
        tag: [
            0x82, 0xF8, 0xF4, 0x9F, 0x1D, 0x87, 0x3C, 0xFF, 0x4B, 0x5A, 0x89, 0xC5, 0x2C, 0xB7,
            0xF5, 0xF9,
        ],
    };

    // Of run 1207, message 2: no words.
    const NO_WORDS: Message = Message {
        nonce: &[0xB7, 0x04, 0, 0, 2, 0],
        masks: &[],
        plain: &[],
        wire: &[],
        tag: [
            0x84, 0x50, 0x15, 0x1F, 0xBE, 0x3B, 0xF4, 0xBB, 0xB4, 0x89, 0x2E, 0x90, 0x49, 0x98,
            0x04, 0xED,
        ],
    };

    // No words, and no bytes of a nonce either.
    const NOTHING: Message = Message {
        nonce: &[],
        masks: &[],
        plain: &[],
        wire: &[],
        tag: [
            0xC2, 0x2C, 0x24, 0x5C, 0xF8, 0xBA, 0xDE, 0xE4, 0x77, 0x0E, 0x5D, 0xE1, 0x98, 0x50,
            0x60, 0x81,
        ],
    };

    // With a nonce of 32 bytes: a sealed, an open and a part word.
    const LONG_NONCE: Message = Message {
        nonce: &[
            1, 2, 3, 4, 5, 6, 7, 8, 9, 10, 11, 12, 13, 14, 15, 16, 17, 18, 19, 20, 21, 22, 23, 24,
            25, 26, 27, 28, 29, 30, 31, 32,
        ],
        masks: &[0xFF, 0xFF, 0x00, 0x00, 0xF0, 0x0F],
        plain: &[0x23, 0x01, 0x67, 0x45, 0xAB, 0x89],
        wire: &[0x9A, 0x75, 0x67, 0x45, 0x3B, 0x89],
        tag: [
            0x3D, 0x2A, 0xC6, 0xA5, 0x4C, 0x64, 0x66, 0x0E, 0xC2, 0xDD, 0xFA, 0xFE, 0x74, 0x1D,
            0x06, 0x23,
        ],
    };

    // Of run 1207, message 0: 65,536 sealed words of 0x1111. The first and the last bytes on the wire, and the tag.
    const LONGEST_FRONT: [u8; 8] = [0x86, 0xD4, 0xB2, 0x72, 0x2E, 0x70, 0xE9, 0x34];

    const LONGEST_END: [u8; 8] = [0x04, 0x23, 0x4F, 0x01, 0xDF, 0x54, 0xCE, 0x01];

    const LONGEST_TAG: [u8; 16] = [
        0x6E, 0x90, 0x80, 0x67, 0xBC, 0x4C, 0x32, 0xE2, 0x6B, 0x65, 0x49, 0x4F, 0xCD, 0x8E, 0x1F,
        0x06,
    ];

    /// How many bytes the arguments of a call have.
    #[derive(Clone, Copy)]
    struct Lengths {
        nonce: usize,
        masks: usize,
        input: usize,
        output: usize,
        tag: usize,
    }

    const FIT: Lengths = Lengths {
        nonce: 6,
        masks: 24,
        input: 24,
        output: 24,
        tag: 16,
    };

    fn filled() -> Result<FilledTable, Fail> {
        Ok(FilledTable::of(&KEY)?)
    }

    fn from_key() -> Result<FromKey, Fail> {
        Ok(FromKey::of(&KEY)?)
    }

    fn given() -> Result<GivenTable, Fail> {
        let mut f = GivenTable::new();
        f.load(filled()?.entries())?;
        Ok(f)
    }

    fn nonce(message: u16) -> Result<Nonce, Fail> {
        let mut issuer = Issuer::new(RUN);
        for _ in 0..message {
            issuer.draw()?;
        }
        Ok(issuer.draw()?)
    }

    // The number of a refusal.
    fn number(answer: Result<(), Fault>) -> Option<u8> {
        answer.err().map(Fault::number)
    }

    // The buffer begins with these bytes, and is as it was found beyond them.
    fn holds(rt: &impl Abort, buffer: &[u8], front: &[u8]) {
        assert_eq!(rt; buffer.get(..front.len()), Some(front));
        assert!(rt; buffer.iter().skip(front.len()).all(|byte| *byte == FOUND));
    }

    // The words of the message of twelve words, or of its masks.
    fn words(bytes: &[u8; 24]) -> [u16; 12] {
        std::array::from_fn(|i| u16::from_le_bytes([bytes[2 * i], bytes[2 * i + 1]]))
    }

    fn tag_words(bytes: &[u8; 16]) -> [u16; 8] {
        std::array::from_fn(|i| u16::from_le_bytes([bytes[2 * i], bytes[2 * i + 1]]))
    }

    fn seals<K: KeyedFunction, C: Coefficient>(
        rt: &impl Abort,
        f: &mut K,
        a: &C,
        nonce: Nonce,
        message: &Message,
    ) -> Result<(), Fail> {
        assert_eq!(rt; nonce.bytes().as_slice(), message.nonce);
        let mut output = [FOUND; 40];
        let mut tag = [FOUND; 16];
        message.seal_into(f, a, nonce, &mut output, &mut tag)?;
        holds(rt, &output, message.wire);
        assert!(rt; tag == message.tag);
        Ok(())
    }

    fn opens<K: KeyedFunction, C: Coefficient>(
        rt: &impl Abort,
        f: &mut K,
        a: &C,
        message: &Message,
    ) -> Result<(), Fail> {
        let mut output = [FOUND; 40];
        message.open_into(f, a, &mut output)?;
        holds(rt, &output, message.plain);
        Ok(())
    }

    // A refused seal leaves its buffers as found, and the function seals afterwards.
    fn seal_refuses(
        rt: &impl Abort,
        heap: Global,
        lengths: Lengths,
        refusal: u8,
    ) -> Result<(), Fail> {
        let mut f = filled()?;
        let masks = vec![in heap; 0xFF; lengths.masks]?;
        let input = vec![in heap; 0x11; lengths.input]?;
        let mut output = vec![in heap; FOUND; lengths.output]?;
        let mut tag = vec![in heap; FOUND; lengths.tag]?;
        let answer = seal(
            &mut f,
            &PrintedTable,
            nonce(0)?,
            &masks,
            &input,
            &mut output,
            &mut tag,
        );
        assert_eq!(rt; number(answer), Some(refusal));
        holds(rt, &output, &[]);
        holds(rt, &tag, &[]);
        seals(rt, &mut f, &PrintedTable, nonce(0)?, &TWELVE)
    }

    // A refused open leaves its output as found, and the function opens afterwards.
    fn open_refuses(
        rt: &impl Abort,
        heap: Global,
        lengths: Lengths,
        refusal: u8,
    ) -> Result<(), Fail> {
        let mut f = filled()?;
        let nonce = vec![in heap; 1; lengths.nonce]?;
        let masks = vec![in heap; 0xFF; lengths.masks]?;
        let input = vec![in heap; 0x11; lengths.input]?;
        let tag = vec![in heap; 0; lengths.tag]?;
        let mut output = vec![in heap; FOUND; lengths.output]?;
        let answer = open(
            &mut f,
            &PrintedTable,
            &nonce,
            &masks,
            &input,
            &mut output,
            &tag,
        );
        assert_eq!(rt; number(answer), Some(refusal));
        holds(rt, &output, &[]);
        opens(rt, &mut f, &PrintedTable, &TWELVE)
    }

    fn both_refuse(
        rt: &impl Abort,
        heap: Global,
        lengths: Lengths,
        refusal: u8,
    ) -> Result<(), Fail> {
        seal_refuses(rt, heap, lengths, refusal)?;
        open_refuses(rt, heap, lengths, refusal)
    }

    // The message is refused for its tag, its output is zero over the input's length, and the function opens the right message afterwards.
    fn differs(rt: &impl Abort, message: &Message) -> Result<(), Fail> {
        let mut f = LazyTable::new(from_key()?);
        let mut output = [FOUND; 40];
        let answer = message.open_into(&mut f, &FieldRule, &mut output);
        assert_eq!(rt; number(answer), Some(10));
        let zeros = [0; 24];
        holds(rt, &output, zeros.get(..message.wire.len()).unwrap_or(&[]));
        opens(rt, &mut f, &FieldRule, &TWELVE)
    }

    #[test]
    fn three_words_come_back(rt: HostRuntime) {
        assert!(rt; came_back() == [0xAC, 0x03, 0xD0, 0x07, 0xD1, 0x03]);
    }

    #[test]
    fn a_nonce_of_an_odd_number_of_bytes_or_over_32_is_refused(
        rt: HostRuntime,
    ) -> Result<(), Fail> {
        for nonce in [1, 31, 33, 34] {
            open_refuses(&rt, rt.alloc(), Lengths { nonce, ..FIT }, 3)?;
        }
        Ok(())
    }

    #[test]
    fn an_input_of_an_odd_number_of_bytes_or_over_131072_is_refused(
        rt: HostRuntime,
    ) -> Result<(), Fail> {
        for input in [1, 23, 131_071, 131_073, 131_074] {
            let lengths = Lengths {
                masks: input,
                input,
                output: input,
                ..FIT
            };
            both_refuse(&rt, rt.alloc(), lengths, 6)?;
        }
        Ok(())
    }

    #[test]
    fn masks_of_another_length_are_refused(rt: HostRuntime) -> Result<(), Fail> {
        for masks in [0, 22, 23, 25, 26] {
            both_refuse(&rt, rt.alloc(), Lengths { masks, ..FIT }, 7)?;
        }
        Ok(())
    }

    #[test]
    fn an_output_that_is_shorter_than_the_input_is_refused(rt: HostRuntime) -> Result<(), Fail> {
        for output in [0, 22, 23] {
            both_refuse(&rt, rt.alloc(), Lengths { output, ..FIT }, 8)?;
        }
        Ok(())
    }

    #[test]
    fn a_tag_that_has_not_16_bytes_is_refused(rt: HostRuntime) -> Result<(), Fail> {
        for tag in [0, 15, 17] {
            both_refuse(&rt, rt.alloc(), Lengths { tag, ..FIT }, 9)?;
        }
        Ok(())
    }

    // Of two checks that fail, the first refuses.
    #[test]
    fn the_first_check_that_fails_refuses(rt: HostRuntime) -> Result<(), Fail> {
        let input = Lengths { input: 23, ..FIT };
        let masks = Lengths {
            masks: 22,
            output: 23,
            ..FIT
        };
        let output = Lengths {
            output: 23,
            tag: 15,
            ..FIT
        };
        open_refuses(&rt, rt.alloc(), Lengths { nonce: 7, ..input }, 3)?;
        both_refuse(&rt, rt.alloc(), input, 6)?;
        both_refuse(&rt, rt.alloc(), masks, 7)?;
        both_refuse(&rt, rt.alloc(), output, 8)?;
        let all = Lengths {
            nonce: 34,
            masks: 22,
            input: 131_074,
            output: 23,
            tag: 17,
        };
        seal_refuses(&rt, rt.alloc(), all, 6)?;
        open_refuses(&rt, rt.alloc(), all, 3)
    }

    // The sixteen bytes of the right tag, one too few or one too many.
    #[test]
    fn the_length_of_a_tag_is_looked_at_before_its_bytes(rt: HostRuntime) -> Result<(), Fail> {
        let mut f = from_key()?;
        let mut output = [FOUND; 24];
        let mut longer = [0; 17];
        longer[0..16].copy_from_slice(&TAG);
        for tag in [&TAG[0..15], &longer] {
            let nonce = TWELVE.nonce;
            let answer = open(&mut f, &FieldRule, nonce, &MASKS, &WIRE, &mut output, tag);
            assert_eq!(rt; number(answer), Some(9));
            holds(&rt, &output, &[]);
        }
        opens(&rt, &mut f, &FieldRule, &TWELVE)
    }

    #[test]
    fn after_a_refused_seal_the_next_number_seals(rt: HostRuntime) -> Result<(), Fail> {
        let mut issuer = Issuer::new(RUN);
        let mut f = filled()?;
        let mut output = [FOUND; 23];
        let mut tag = [FOUND; 16];
        let first = issuer.draw()?;
        let refused = TWELVE.seal_into(&mut f, &PrintedTable, first, &mut output, &mut tag);
        assert_eq!(rt; number(refused), Some(8));
        holds(&rt, &output, &[]);
        holds(&rt, &tag, &[]);
        seals(&rt, &mut f, &PrintedTable, issuer.draw()?, &ONE)
    }

    #[test]
    fn a_refused_call_asks_its_function_nothing(rt: HostRuntime) -> Result<(), Fail> {
        let mut f = LazyTable::new(from_key()?);
        let mut output = [FOUND; 23];
        let mut tag = [FOUND; 16];
        let sealed = TWELVE.seal_into(&mut f, &PrintedTable, nonce(0)?, &mut output, &mut tag);
        let opened = TWELVE.open_into(&mut f, &PrintedTable, &mut output);
        assert_eq!(rt; (number(sealed), number(opened)), (Some(8), Some(8)));
        holds(&rt, &output, &[]);
        holds(&rt, &tag, &[]);
        for high in 0..=255u8 {
            assert_eq!(rt; f.remembered(high), None);
        }
        opens(&rt, &mut f, &PrintedTable, &TWELVE)
    }

    #[test]
    fn seal_makes_the_wire_bytes_and_the_tag_of_the_reference(rt: HostRuntime) -> Result<(), Fail> {
        let mut issuer = Issuer::new(RUN);
        let mut f = from_key()?;
        seals(&rt, &mut f, &FieldRule, issuer.draw()?, &TWELVE)?;
        seals(&rt, &mut f, &FieldRule, issuer.draw()?, &ONE)?;
        seals(&rt, &mut f, &FieldRule, issuer.draw()?, &NO_WORDS)?;
        seals(&rt, &mut f, &FieldRule, nonce(0)?, &THREE)
    }

    #[test]
    fn open_hands_out_the_plaintext_of_the_reference(rt: HostRuntime) -> Result<(), Fail> {
        let mut f = filled()?;
        for message in [TWELVE, THREE, ONE, NO_WORDS, NOTHING, LONG_NONCE] {
            opens(&rt, &mut f, &PrintedTable, &message)?;
        }
        Ok(())
    }

    #[test]
    fn an_output_of_the_length_of_the_input_is_taken(rt: HostRuntime) -> Result<(), Fail> {
        let mut f = LazyTable::new(filled()?);
        let mut output = [FOUND; 24];
        let mut tag = [FOUND; 16];
        TWELVE.seal_into(&mut f, &FieldRule, nonce(0)?, &mut output, &mut tag)?;
        assert!(rt; output == WIRE);
        assert!(rt; tag == TAG);
        TWELVE.open_into(&mut f, &FieldRule, &mut output)?;
        assert!(rt; output == PLAIN);
        Ok(())
    }

    #[test]
    fn a_message_of_no_words_has_a_tag(rt: HostRuntime) -> Result<(), Fail> {
        let mut f = filled()?;
        let mut tag = [FOUND; 16];
        NO_WORDS.seal_into(&mut f, &PrintedTable, nonce(2)?, &mut [], &mut tag)?;
        assert!(rt; tag == NO_WORDS.tag);
        NO_WORDS.open_into(&mut f, &PrintedTable, &mut [])?;
        NOTHING.open_into(&mut f, &PrintedTable, &mut [])?;
        tag[0] ^= 0x01;
        differs(&rt, &Message { tag, ..NO_WORDS })
    }

    #[test]
    fn the_longest_message_is_sealed_and_opened(rt: HostRuntime) -> Result<(), Fail> {
        assert_eq!(rt; LONGEST, 131_072);
        let mut f = filled()?;
        let masks = vec![in rt.alloc(); 0xFF; 131_072]?;
        let plain = vec![in rt.alloc(); 0x11; 131_072]?;
        let mut wire = vec![in rt.alloc(); FOUND; 131_072]?;
        let mut output = vec![in rt.alloc(); FOUND; 131_074]?;
        let mut tag = [FOUND; 16];
        seal(
            &mut f,
            &PrintedTable,
            nonce(0)?,
            &masks,
            &plain,
            &mut wire,
            &mut tag,
        )?;
        assert!(rt; wire.starts_with(&LONGEST_FRONT));
        assert!(rt; wire.ends_with(&LONGEST_END));
        assert!(rt; tag == LONGEST_TAG);
        let nonce = TWELVE.nonce;
        open(
            &mut f,
            &PrintedTable,
            nonce,
            &masks,
            &wire,
            &mut output,
            &tag,
        )?;
        holds(&rt, &output, &plain);
        Ok(())
    }

    #[test]
    fn the_longest_message_is_refused_and_its_output_is_zero(rt: HostRuntime) -> Result<(), Fail> {
        let mut f = from_key()?;
        let masks = vec![in rt.alloc(); 0xFF; 131_072]?;
        let wire = vec![in rt.alloc(); 0x11; 131_072]?;
        let zeros = vec![in rt.alloc(); 0; 131_072]?;
        let mut output = vec![in rt.alloc(); FOUND; 131_074]?;
        let nonce = TWELVE.nonce;
        let answer = open(&mut f, &FieldRule, nonce, &masks, &wire, &mut output, &TAG);
        assert_eq!(rt; number(answer), Some(10));
        holds(&rt, &output, &zeros);
        opens(&rt, &mut f, &FieldRule, &TWELVE)
    }

    // Every implementation of the keyed function opens the message, with either coefficient.
    fn each_opens(rt: &impl Abort, message: &Message) -> Result<(), Fail> {
        opens(rt, &mut filled()?, &PrintedTable, message)?;
        opens(rt, &mut filled()?, &FieldRule, message)?;
        opens(rt, &mut from_key()?, &PrintedTable, message)?;
        opens(rt, &mut from_key()?, &FieldRule, message)?;
        opens(rt, &mut given()?, &PrintedTable, message)?;
        opens(rt, &mut given()?, &FieldRule, message)?;
        let mut lazy = LazyTable::new(from_key()?);
        opens(rt, &mut lazy, &PrintedTable, message)?;
        opens(rt, &mut lazy, &FieldRule, message)?;
        let mut twice = LazyTable::new(LazyTable::new(given()?));
        opens(rt, &mut twice, &PrintedTable, message)?;
        opens(rt, &mut twice, &FieldRule, message)
    }

    // What is sealed with this function and this coefficient comes back with each.
    fn sealed_for_each<K: KeyedFunction, C: Coefficient>(
        rt: &impl Abort,
        f: &mut K,
        a: &C,
    ) -> Result<(), Fail> {
        let mut wire = [FOUND; 24];
        let mut tag = [FOUND; 16];
        TWELVE.seal_into(f, a, nonce(0)?, &mut wire, &mut tag)?;
        assert_eq!(rt; wire.as_slice(), WIRE.as_slice());
        assert_eq!(rt; tag.as_slice(), TAG.as_slice());
        let message = Message {
            wire: &wire,
            tag,
            ..TWELVE
        };
        each_opens(rt, &message)
    }

    #[test]
    fn what_a_table_seals_each_implementation_opens(rt: HostRuntime) -> Result<(), Fail> {
        sealed_for_each(&rt, &mut filled()?, &PrintedTable)?;
        sealed_for_each(&rt, &mut filled()?, &FieldRule)?;
        sealed_for_each(&rt, &mut given()?, &PrintedTable)?;
        sealed_for_each(&rt, &mut given()?, &FieldRule)
    }

    #[test]
    fn what_is_sealed_without_a_table_each_implementation_opens(
        rt: HostRuntime,
    ) -> Result<(), Fail> {
        sealed_for_each(&rt, &mut from_key()?, &PrintedTable)?;
        sealed_for_each(&rt, &mut from_key()?, &FieldRule)?;
        let mut lazy = LazyTable::new(from_key()?);
        sealed_for_each(&rt, &mut lazy, &PrintedTable)?;
        sealed_for_each(&rt, &mut lazy, &FieldRule)?;
        let mut twice = LazyTable::new(LazyTable::new(filled()?));
        sealed_for_each(&rt, &mut twice, &PrintedTable)?;
        sealed_for_each(&rt, &mut twice, &FieldRule)
    }

    #[test]
    fn another_tag_is_refused_and_the_output_is_zero(rt: HostRuntime) -> Result<(), Fail> {
        for place in 0..16 {
            let mut tag = TAG;
            tag[place] ^= 1 << (place % 8);
            differs(&rt, &Message { tag, ..TWELVE })?;
        }
        Ok(())
    }

    // A bit of a sealed word, of an open word, of a part word where its mask has a bit and where it has none, and of the last word.
    #[test]
    fn another_wire_bit_is_refused_and_the_output_is_zero(rt: HostRuntime) -> Result<(), Fail> {
        for (place, bit) in [(8, 0x10), (4, 0x01), (6, 0x10), (7, 0x80), (23, 0x80)] {
            let mut wire = WIRE;
            wire[place] ^= bit;
            differs(
                &rt,
                &Message {
                    wire: &wire,
                    ..TWELVE
                },
            )?;
        }
        Ok(())
    }

    // A bit that was sealed is taken as open, and one that was open as sealed.
    #[test]
    fn another_mask_is_refused_and_the_output_is_zero(rt: HostRuntime) -> Result<(), Fail> {
        for (place, bit) in [(0, 0x01), (4, 0x01), (23, 0x80)] {
            let mut masks = MASKS;
            masks[place] ^= bit;
            differs(
                &rt,
                &Message {
                    masks: &masks,
                    ..TWELVE
                },
            )?;
        }
        Ok(())
    }

    // The tag is of the plaintext. Where a bit is the same sealed and open, its mask is not seen.
    #[test]
    fn a_mask_bit_that_turns_no_plaintext_bit_is_taken(rt: HostRuntime) -> Result<(), Fail> {
        let mut masks = MASKS;
        masks[0] ^= 0x08;
        opens(
            &rt,
            &mut filled()?,
            &FieldRule,
            &Message {
                masks: &masks,
                ..TWELVE
            },
        )
    }

    #[test]
    fn another_nonce_is_refused_and_the_output_is_zero(rt: HostRuntime) -> Result<(), Fail> {
        for nonce in [ONE.nonce, NOTHING.nonce, LONG_NONCE.nonce] {
            differs(&rt, &Message { nonce, ..TWELVE })?;
        }
        Ok(())
    }

    #[test]
    fn another_key_is_refused_and_the_output_is_zero(rt: HostRuntime) -> Result<(), Fail> {
        let mut f = FromKey::new();
        f.load(&KEY[0..7])?;
        let mut output = [FOUND; 25];
        let answer = TWELVE.open_into(&mut f, &PrintedTable, &mut output);
        assert_eq!(rt; number(answer), Some(10));
        holds(&rt, &output, &[0; 24]);
        f.load(&KEY)?;
        opens(&rt, &mut f, &PrintedTable, &TWELVE)
    }

    #[test]
    fn seal_makes_what_the_sealer_of_a_link_makes(rt: HostRuntime) -> Result<(), Fail> {
        let mut message = ReadySealer::new(filled()?, PrintedTable).begin(nonce(3)?);
        let mut wire = [FOUND; 24];
        let mut tag = [FOUND; 16];
        let mut f = LazyTable::new(from_key()?);
        TWELVE.seal_into(&mut f, &FieldRule, nonce(3)?, &mut wire, &mut tag)?;
        let plain = words(&PLAIN);
        let sealed = words(&wire);
        for (i, mask) in words(&MASKS).into_iter().enumerate() {
            assert_eq!(rt; message.word(mask, plain[i]), Ok(sealed[i]));
        }
        let (_, drawn) = message.finish();
        assert!(rt; tag_words(&tag) == drawn);
        Ok(())
    }

    // A receiver reads the words, and says of the tag what `open` says.
    fn receives(rt: &impl Abort, tag: [u8; 16], verdict: Verdict) -> Result<(), Fail> {
        let mut receiver = Receiver::new(from_key()?, FieldRule);
        receiver.begin(TWELVE.nonce)?;
        let plain = words(&PLAIN);
        let wire = words(&WIRE);
        for (i, mask) in words(&MASKS).into_iter().enumerate() {
            assert_eq!(rt; receiver.word(mask, wire[i]), Answer::Reading(plain[i]));
        }
        assert_eq!(rt; receiver.finish(tag_words(&tag)), verdict);
        Ok(())
    }

    #[test]
    fn open_says_what_a_whole_receiver_reads_and_says(rt: HostRuntime) -> Result<(), Fail> {
        receives(&rt, TAG, Verdict::Agrees)?;
        opens(&rt, &mut filled()?, &PrintedTable, &TWELVE)?;
        let mut tag = TAG;
        tag[7] ^= 0x10;
        receives(&rt, tag, Verdict::Differs)?;
        differs(&rt, &Message { tag, ..TWELVE })
    }
}
