//! Worked examples of the calls on a tape: two commands that are read back, and as tests each command, each refusal, each edge value, and what
//! is left afterwards.
#![tactic(auto)]

mod written;

pub use written::read_back;

#[cfg(test)]
mod tests {
    use crate::read_back;
    use functions::{FieldRule, FilledTable, FromKey, LazyTable, PrintedTable};
    use link::{Answer, Receiver, Verdict};
    use sss::{Fault, Layer};
    use std::alloc::Global;
    use std::process::Abort;
    use std::test::Fail;
    use tape::{Command, Item, Line, Reader, Replay, WordItem, Writer, list_into, listing};

    // Each command once, as bytes and as what they say, and the place of each.
    const TAPE: [u8; 36] = [
        0x4E, 1, 0, 0, 0, 2, 0, // nonce
        0x53, 0x34, 0x12, // sealed word
        0x4F, 0x05, 0x00, // open word
        0x50, 0xF0, 0x0F, 0xCD, 0xAB, // part word
        0x42, // break
        0x54, 1, 2, 3, 4, 5, 6, 7, 8, 9, 10, 11, 12, 13, 14, 15, 16, // tag
    ];

    const COMMANDS: [Command; 6] = [
        Command::Nonce([1, 0, 0, 0, 2, 0]),
        Command::Sealed(0x1234),
        Command::Open(0x0005),
        Command::Part {
            mask: 0x0FF0,
            wire: 0xABCD,
        },
        Command::Break,
        Command::Tag([
            0x0201, 0x0403, 0x0605, 0x0807, 0x0A09, 0x0C0B, 0x0E0D, 0x100F,
        ]),
    ];

    const PLACES: [usize; 6] = [0, 7, 10, 13, 18, 19];

    // The input of the example that prints a break, two withheld words and a refusal.
    const INPUT: [u8; 11] = [
        0x01, 0x00, 0x42, 0x53, 0x34, 0x12, 0x4F, 0x05, 0x00, 0x53, 0x01,
    ];

    // A key of one byte and a whole message of run 1, message 2: its nonce, a sealed, an open and a part word, and its tag.
    const MESSAGE: [u8; 37] = [
        0x01, 0x00, 0x4E, 0x01, 0x00, 0x00, 0x00, 0x02, 0x00, 0x53, 0x8C, 0x9D, 0x4F, 0xD0, 0x07,
        0x50, 0xFF, 0x0F, 0xA0, 0x03, 0x54, 0xC1, 0x9D, 0xAF, 0xF3, 0xD4, 0x3A, 0x50, 0xE7, 0xDE,
        0x68, 0x3B, 0x4E, 0xEC, 0x2F, 0x05, 0x89,
    ];

    fn lists(rt: &impl Abort, heap: Global, input: &[u8], text: &str) -> Result<(), Fail> {
        let listed = listing(heap, input)?;
        assert_eq!(rt; listed.as_str(), text);
        Ok(())
    }

    // The text of a listing stands at the start of a buffer with room to spare, and the rest of the buffer is as it was.
    fn lists_into(rt: &impl Abort, input: &[u8], text: &str) {
        let mut buffer = [0xA5; 96];
        let length = text.len();
        assert_eq!(rt; list_into(input, &mut buffer), Some(length));
        assert_eq!(rt; buffer.get(..length), Some(text.as_bytes()));
        for byte in &buffer[length.min(96)..96] {
            assert_eq!(rt; *byte, 0xA5);
        }
    }

    // A key of zeros and then breaks, this many bytes in all.
    fn breaks(heap: Global, size: usize) -> Result<Vec<u8>, Fail> {
        let mut input = vec![in heap; 0x42; size]?;
        if let Some(count) = input.first_mut() {
            *count = 1;
        }
        Ok(input)
    }

    #[test]
    fn faults_of_a_tape_have_their_numbers(rt: HostRuntime) {
        assert_eq!(rt; Fault::UnknownCommand(7).number(), 11);
        assert_eq!(rt; Fault::CutOff(7).number(), 12);
        assert_eq!(rt; Fault::NoRoom(7).number(), 13);
        assert_eq!(rt; Fault::TooLong.number(), 14);
        assert_eq!(rt; Fault::UnknownCommand(7).place(), 7);
        assert_eq!(rt; Fault::CutOff(8).place(), 8);
        assert_eq!(rt; Fault::NoRoom(9).place(), 9);
        assert_eq!(rt; Fault::TooLong.place(), 0);
        assert_eq!(rt; Fault::UnknownCommand(7).layer(), Layer::Tape);
        assert_eq!(rt; Fault::CutOff(8).layer(), Layer::Tape);
        assert_eq!(rt; Fault::NoRoom(9).layer(), Layer::Tape);
        assert_eq!(rt; Fault::TooLong.layer(), Layer::Message);
    }

    #[test]
    fn each_command_is_read(rt: HostRuntime) -> Result<(), Fail> {
        let mut reader = Reader::new(&TAPE);
        for (command, place) in COMMANDS.iter().zip(PLACES) {
            assert_eq!(rt; reader.place(), place);
            let item = reader.next_item()?;
            assert_eq!(rt; item.map(|item| item.command()), Some(*command));
            assert_eq!(rt; item.map(|item| item.place()), Some(place));
        }
        assert_eq!(rt; reader.place(), TAPE.len());
        assert_eq!(rt; reader.next_item(), Ok(None));
        assert_eq!(rt; reader.next_item(), Ok(None));
        assert_eq!(rt; reader.place(), TAPE.len());
        Ok(())
    }

    #[test]
    fn items_are_parts_of_the_tape(rt: HostRuntime) -> Result<(), Fail> {
        let mut reader = Reader::new(&TAPE);
        for place in PLACES {
            let item = reader.next_item()?.expect(&rt, "an item");
            assert_eq!(rt; item.place(), place);
            assert_eq!(rt; TAPE.get(place..reader.place()), Some(item.bytes()));
            match item {
                Item::Nonce(nonce) => {
                    assert_eq!(rt; nonce.place(), 0);
                    assert!(rt; nonce.nonce() == [1, 0, 0, 0, 2, 0]);
                }
                Item::Word(word) => match word {
                    WordItem::Sealed(piece) => {
                        assert_eq!(rt; piece.bytes(), [0x53, 0x34, 0x12].as_slice());
                        assert_eq!(rt; (word.mask(), word.wire()), (0xFFFF, 0x1234));
                    }
                    WordItem::Open(_) => {
                        assert_eq!(rt; word.place(), 10);
                        assert_eq!(rt; (word.mask(), word.wire()), (0, 5));
                    }
                    WordItem::Part(_) => {
                        assert_eq!(rt; word.bytes(), [0x50, 0xF0, 0x0F, 0xCD, 0xAB].as_slice());
                        assert_eq!(rt; (word.mask(), word.wire()), (0x0FF0, 0xABCD));
                    }
                },
                Item::Break(piece) => assert_eq!(rt; piece.place(), 18),
                Item::Tag(tag) => assert_eq!(rt; tag.tag()[7], 0x100F),
            }
        }
        assert_eq!(rt; reader.next_item(), Ok(None));
        Ok(())
    }

    #[test]
    fn the_reader_stays_at_an_unknown_command(rt: HostRuntime) -> Result<(), Fail> {
        let mut reader = Reader::new(&[0x42, 0x58, 0x42]);
        assert_eq!(rt;
            reader.next_item()?.map(|item| item.command()),
            Some(Command::Break)
        );
        assert_eq!(rt; reader.next_item(), Err(Fault::UnknownCommand(1)));
        assert_eq!(rt; reader.place(), 1);
        assert_eq!(rt; reader.next_item(), Err(Fault::UnknownCommand(1)));
        assert_eq!(rt; reader.place(), 1);
        Ok(())
    }

    #[test]
    fn the_reader_stays_at_operands_that_are_cut_off(rt: HostRuntime) {
        for place in PLACES {
            let mut reader = Reader::new(&TAPE[place..TAPE.len()]);
            let whole = reader.next_item();
            assert!(rt; whole.is_ok());
            let size = reader.place();
            let mut cut = Reader::new(&TAPE[place..place + size - 1]);
            if size > 1 {
                assert_eq!(rt; cut.next_item(), Err(Fault::CutOff(0)));
                assert_eq!(rt; cut.next_item(), Err(Fault::CutOff(0)));
                assert_eq!(rt; cut.place(), 0);
            }
        }
    }

    #[test]
    fn an_empty_tape_is_at_its_end(rt: HostRuntime) {
        let mut reader = Reader::new(&[]);
        assert_eq!(rt; reader.next_item(), Ok(None));
        assert_eq!(rt; reader.place(), 0);
    }

    #[test]
    fn two_commands_are_written_as_these_bytes(rt: HostRuntime) {
        assert!(rt; read_back() == [0x42, 0x53, 0x34, 0x12]);
    }

    #[test]
    fn each_command_is_written(rt: HostRuntime) -> Result<(), Fail> {
        let mut tape = [0xA5; 40];
        let mut writer = Writer::new(&mut tape);
        for (command, place) in COMMANDS.iter().zip(PLACES) {
            assert_eq!(rt; writer.place(), place);
            writer.write(*command)?;
        }
        assert_eq!(rt; writer.written(), TAPE.as_slice());
        assert_eq!(rt; &tape[0..36], TAPE.as_slice());
        assert_eq!(rt; &tape[36..40], [0xA5; 4].as_slice());
        Ok(())
    }

    #[test]
    fn what_does_not_fit_is_not_written(rt: HostRuntime) -> Result<(), Fail> {
        let mut tape = [0xA5; 5];
        let mut writer = Writer::new(&mut tape);
        writer.write(Command::Sealed(0x1234))?;
        assert_eq!(rt; writer.write(Command::Open(5)), Err(Fault::NoRoom(3)));
        assert_eq!(rt; writer.write(Command::Tag([0; 8])), Err(Fault::NoRoom(3)));
        assert_eq!(rt; writer.place(), 3);
        assert_eq!(rt; writer.written(), [0x53, 0x34, 0x12].as_slice());
        writer.write(Command::Break)?;
        writer.write(Command::Break)?;
        assert_eq!(rt; writer.write(Command::Break), Err(Fault::NoRoom(5)));
        assert_eq!(rt; writer.written(), [0x53, 0x34, 0x12, 0x42, 0x42].as_slice());
        assert!(rt; tape == [0x53, 0x34, 0x12, 0x42, 0x42]);
        Ok(())
    }

    #[test]
    fn a_refused_command_touches_nothing(rt: HostRuntime) -> Result<(), Fail> {
        let mut tape = [0xA5; 5];
        let mut writer = Writer::new(&mut tape);
        writer.write(Command::Sealed(0x1234))?;
        assert_eq!(rt; writer.write(Command::Nonce([1; 6])), Err(Fault::NoRoom(3)));
        assert!(rt; tape == [0x53, 0x34, 0x12, 0xA5, 0xA5]);
        Ok(())
    }

    #[test]
    fn nothing_fits_into_nothing(rt: HostRuntime) {
        let mut writer = Writer::new(&mut []);
        assert_eq!(rt; writer.write(Command::Break), Err(Fault::NoRoom(0)));
        assert_eq!(rt; writer.place(), 0);
    }

    #[test]
    fn a_tape_that_reads_is_written_again(rt: HostRuntime) -> Result<(), Fail> {
        let mut again = [0; 36];
        let mut writer = Writer::new(&mut again);
        let mut reader = Reader::new(&TAPE);
        for _ in PLACES {
            let item = reader.next_item()?.expect(&rt, "an item");
            writer.write(item.command())?;
        }
        assert_eq!(rt; reader.next_item(), Ok(None));
        assert_eq!(rt; writer.place(), 36);
        assert!(rt; again == TAPE);
        Ok(())
    }

    // The texts below are those that the program in `reference/` prints for the same inputs.
    #[test]
    fn a_damaged_tape_is_listed_to_the_damage(rt: HostRuntime) -> Result<(), Fail> {
        let text = "0 break\n1 withheld 1\n4 withheld 0\nrefused 12 at 7\n";
        lists(&rt, rt.alloc(), &INPUT, text)?;
        lists(
            &rt,
            rt.alloc(),
            &[1, 0, 0x42, 0x58],
            "0 break\nrefused 11 at 1\n",
        )?;
        lists(&rt, rt.alloc(), &[1, 0, 0x4E, 1, 2, 3], "refused 12 at 0\n")
    }

    #[test]
    fn a_whole_message_is_read_and_its_tag_agrees(rt: HostRuntime) -> Result<(), Fail> {
        let text = "0 nonce\n7 reading 1234\n10 reading 07d0\n13 reading 03ac\n18 agrees\nend 35\n";
        lists(&rt, rt.alloc(), &MESSAGE, text)
    }

    #[test]
    fn a_listing_is_put_into_a_lent_buffer(rt: HostRuntime) {
        let text = "0 break\n1 withheld 1\n4 withheld 0\nrefused 12 at 7\n";
        lists_into(&rt, &INPUT, text);
        let text = "0 nonce\n7 reading 1234\n10 reading 07d0\n13 reading 03ac\n18 agrees\nend 35\n";
        lists_into(&rt, &MESSAGE, text);
        lists_into(&rt, &[1, 0], "end 0\n");
        lists_into(&rt, &[], "refused 1\n");
    }

    #[test]
    fn a_listing_takes_a_buffer_of_just_its_length(rt: HostRuntime) {
        let mut buffer = [0xA5; 50];
        assert_eq!(rt; list_into(&INPUT, &mut buffer), Some(50));
        let text = "0 break\n1 withheld 1\n4 withheld 0\nrefused 12 at 7\n";
        assert_eq!(rt; buffer.as_slice(), text.as_bytes());
    }

    #[test]
    fn no_part_of_a_listing_is_left_where_it_does_not_fit(rt: HostRuntime) -> Result<(), Fail> {
        let mut buffer = [0xA5; 49];
        assert_eq!(rt; list_into(&INPUT, &mut buffer), None);
        assert!(rt; buffer == [0; 49]);
        let mut buffer = [0xA5; 8];
        assert_eq!(rt; list_into(&breaks(rt.alloc(), 65_536)?, &mut buffer), None);
        assert!(rt; buffer == [0; 8]);
        assert_eq!(rt; list_into(&INPUT, &mut []), None);
        Ok(())
    }

    #[test]
    fn another_tag_differs(rt: HostRuntime) -> Result<(), Fail> {
        let mut input = MESSAGE;
        input[36] = 0x88;
        let text =
            "0 nonce\n7 reading 1234\n10 reading 07d0\n13 reading 03ac\n18 differs\nend 35\n";
        lists(&rt, rt.alloc(), &input, text)
    }

    #[test]
    fn any_keyed_function_replays_a_tape(rt: HostRuntime) -> Result<(), Fail> {
        let receiver = Receiver::new(LazyTable::new(FromKey::of(&[0])?), FieldRule);
        let mut last = None;
        for line in Replay::new(receiver, &MESSAGE[2..37]) {
            if line != (Line::End { length: 35 }) {
                last = Some(line);
            }
        }
        let agrees = Line::Tag {
            place: 18,
            verdict: Verdict::Agrees,
        };
        assert_eq!(rt; last, Some(agrees));
        Ok(())
    }

    #[test]
    fn a_replay_goes_on_from_where_its_receiver_stands(rt: HostRuntime) -> Result<(), Fail> {
        let mut receiver = Receiver::new(FilledTable::of(&[0])?, PrintedTable);
        receiver.begin(&MESSAGE[3..9])?;
        let mut replay = Replay::new(receiver, &MESSAGE[9..12]);
        let reading = Line::Word {
            place: 0,
            answer: Answer::Reading(0x1234),
        };
        assert_eq!(rt; replay.next(), Some(reading));
        assert_eq!(rt; replay.next(), Some(Line::End { length: 3 }));
        Ok(())
    }

    #[test]
    fn each_line_prints_itself(rt: HostRuntime) -> Result<(), Fail> {
        let refused = format!(in rt.alloc(); "{}", Line::Refused(Fault::NoRoom(7)))?;
        assert_eq!(rt; refused.as_str(), "refused 13 at 7");
        let full = format!(in rt.alloc(); "{}", Line::Refused(Fault::Full))?;
        assert_eq!(rt; full.as_str(), "refused 5");
        Ok(())
    }

    #[test]
    fn the_mask_decides_and_not_the_command(rt: HostRuntime) -> Result<(), Fail> {
        let input = [
            1, 0, 0x50, 0xFF, 0xFF, 1, 0, 0x53, 2, 0, 0x50, 0, 0, 3, 0, 0x50, 0xFF, 0x7F, 4, 0,
        ];
        let text = "0 withheld 1\n5 withheld 2\n8 withheld 0\n13 withheld 0\nend 18\n";
        lists(&rt, rt.alloc(), &input, text)
    }

    #[test]
    fn a_tape_of_nothing_has_its_end_alone(rt: HostRuntime) -> Result<(), Fail> {
        lists(&rt, rt.alloc(), &[1, 0], "end 0\n")
    }

    #[test]
    fn a_key_that_does_not_load_is_refused(rt: HostRuntime) -> Result<(), Fail> {
        lists(&rt, rt.alloc(), &[], "refused 1\n")?;
        lists(&rt, rt.alloc(), &[0], "refused 1\n")?;
        lists(&rt, rt.alloc(), &[0, 0x42], "refused 1\n")?;
        lists(&rt, rt.alloc(), &[2, 0], "refused 1\n")?;
        lists(&rt, rt.alloc(), &[16; 16], "refused 1\n")?;
        lists(&rt, rt.alloc(), &[16; 17], "end 0\n")?;
        lists(&rt, rt.alloc(), &[17; 18], "refused 1\n")?;
        lists(&rt, rt.alloc(), &[255; 256], "refused 1\n")
    }

    #[test]
    fn the_longest_input_is_taken_and_one_more_byte_is_not(rt: HostRuntime) -> Result<(), Fail> {
        let longest = listing(rt.alloc(), &breaks(rt.alloc(), 65_536)?)?;
        assert!(rt; longest.as_str().starts_with("0 break\n1 break\n"));
        assert!(rt; longest.as_str().ends_with("65533 break\nend 65534\n"));
        let longer = breaks(rt.alloc(), 65_537)?;
        lists(&rt, rt.alloc(), &longer, "refused 14\n")
    }

    #[test]
    fn the_length_is_looked_at_before_the_key(rt: HostRuntime) -> Result<(), Fail> {
        let zeros = vec![in rt.alloc(); 0; 65_537]?;
        lists(&rt, rt.alloc(), &zeros, "refused 14\n")?;
        lists(&rt, rt.alloc(), &zeros[0..65_536], "refused 1\n")
    }

    #[test]
    fn lines_come_one_by_one(rt: HostRuntime) -> Result<(), Fail> {
        let mut replay = Replay::of_input(&INPUT)?;
        assert_eq!(rt; replay.next(), Some(Line::Break { place: 0 }));
        let rest = replay.by_ref().count();
        assert_eq!(rt; rest, 3);
        assert_eq!(rt; replay.next(), None);
        assert_eq!(rt; replay.next(), None);
        Ok(())
    }
}
