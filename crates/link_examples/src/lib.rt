//! Worked examples of the calls of the link's two ends: a history that meets each premise of the law of a loss, and as tests each refusal, each
//! edge value, and what is left afterwards.
#![tactic(auto)]

mod worked;

pub use worked::worked_history;

#[cfg(test)]
mod tests {
    use crate::worked_history;
    use functions::{FieldRule, FilledTable, FromKey, LazyTable, PrintedTable};
    use link::{
        Answer, Call, Entry, History, Issuer, Nonce, OpenMessage, ReadySealer, Receiver,
        ReceiverCall, ReceiverEntry, Reception, Sealer, SealerCall, SealerEntry, Unmade, Verdict,
        run,
    };
    use sss::{Coefficient, Fault, KeyedFunction, OPEN, Registers, SEALED};
    use std::alloc::{AllocError, Global};
    use std::process::Abort;
    use std::test::Fail;

    // The key of every end. The wire words, tags and readings below that follow from it are those of the program in `reference/`.
    const KEY: [u8; 16] = [3, 1, 4, 1, 5, 9, 2, 6, 5, 3, 5, 8, 9, 7, 9, 3];

    const PART: u16 = 0x0FF0;

    // Run 1, message 2.
    const NONCE: [u8; 6] = [1, 0, 0, 0, 2, 0];

    // The message with that nonce: the mask, the plaintext word and the wire word of each of its words.
    const WORDS: [(u16, u16, u16); 4] = [
        (SEALED, 0x0123, 0xF8A5),
        (OPEN, 0x4567, 0x4567),
        (PART, 0x89AB, 0x867B),
        (SEALED, 0xCDEF, 0xE980),
    ];

    const TAG: [u16; 8] = [
        0x42F5, 0xD108, 0x462B, 0x9B56, 0xC4B7, 0xECF4, 0xCB5E, 0x312B,
    ];

    const FIRST_WORD: SealerCall = SealerCall::Word {
        mask: SEALED,
        plain: 0x0123,
    };

    // The tag where the message has that word alone.
    const FIRST_WORD_TAG: [u16; 8] = [
        0xC5E6, 0x9C6E, 0x535C, 0x11CF, 0xDD44, 0x4C25, 0x86D5, 0x0F0B,
    ];

    const WIRE_WORD: ReceiverCall = ReceiverCall::Word {
        mask: SEALED,
        wire: 0x0123,
    };

    fn filled() -> Result<FilledTable, Fail> {
        Ok(FilledTable::of(&KEY)?)
    }

    fn from_key() -> Result<FromKey, Fail> {
        Ok(FromKey::of(&KEY)?)
    }

    fn nonce(run: u32, message: u16) -> Result<Nonce, Fail> {
        let mut issuer = Issuer::new(run);
        for _ in 0..message {
            issuer.draw()?;
        }
        Ok(issuer.draw()?)
    }

    // The number of a refusal.
    fn number<T: Drop>(answer: Result<T, Fault>) -> Option<u8> {
        answer.err().map(Fault::number)
    }

    fn seal_words<K: KeyedFunction + Drop, C: Coefficient + Drop>(
        rt: &impl Abort,
        sealer: ReadySealer<K, C>,
    ) -> Result<(), Fail> {
        let mut message = sealer.begin(nonce(1, 2)?);
        for (mask, plain, wire) in WORDS {
            assert_eq!(rt; message.word(mask, plain), Ok(wire));
        }
        let (_, tag) = message.finish();
        assert!(rt; tag == TAG);
        Ok(())
    }

    fn receive_words<K: KeyedFunction, C: Coefficient>(
        rt: &impl Abort,
        receiver: &mut Receiver<K, C>,
    ) -> Result<(), Fail> {
        receiver.begin(&NONCE)?;
        for (mask, plain, wire) in WORDS {
            assert_eq!(rt; receiver.word(mask, wire), Answer::Reading(plain));
        }
        assert_eq!(rt; receiver.reception(), Reception::Whole);
        Ok(())
    }

    fn pass_words<SK: KeyedFunction, SC: Coefficient, RK: KeyedFunction, RC: Coefficient>(
        rt: &impl Abort,
        message: &mut OpenMessage<SK, SC>,
        receiver: &mut Receiver<RK, RC>,
    ) -> Result<(), Fail> {
        for (mask, plain, _) in WORDS {
            let wire = message.word(mask, plain)?;
            assert_eq!(rt; receiver.word(mask, wire), Answer::Reading(plain));
        }
        Ok(())
    }

    // A lost receiver with row 0 takes seventeen sealed words and is caught.
    fn catch_up<K: KeyedFunction, C: Coefficient>(rt: &impl Abort, receiver: &mut Receiver<K, C>) {
        assert_eq!(rt; receiver.reception(), Reception::Lost(0));
        for row in 1..=17u8 {
            assert_eq!(rt;
                receiver.word(SEALED, u16::from(row)),
                Answer::Withheld(row)
            );
        }
        assert_eq!(rt; receiver.reception(), Reception::Caught);
    }

    // The receiver that goes on where this one stands.
    fn resumed<K: KeyedFunction, C: Coefficient>(
        receiver: &Receiver<K, C>,
    ) -> Result<Option<Receiver<FilledTable, PrintedTable>>, Fail> {
        let registers = receiver.registers();
        let registers = Registers::from_words(registers.cipher_words(), registers.check_words());
        Ok(Receiver::resumed(filled()?, PrintedTable, registers, receiver.reception()))
    }

    // After any verdict the receiver is lost with row 0.
    fn finish<K: KeyedFunction, C: Coefficient>(
        rt: &impl Abort,
        receiver: &mut Receiver<K, C>,
        tag: [u16; 8],
        verdict: Verdict,
    ) {
        assert_eq!(rt; receiver.finish(tag), verdict);
        assert_eq!(rt; receiver.reception(), Reception::Lost(0));
    }

    fn refuse_nonces<K: KeyedFunction, C: Coefficient>(
        rt: &impl Abort,
        receiver: &mut Receiver<K, C>,
    ) {
        assert_eq!(rt; number(receiver.begin(&[1; 1])), Some(3));
        assert_eq!(rt; number(receiver.begin(&[1; 33])), Some(3));
        assert_eq!(rt; number(receiver.begin(&[1; 34])), Some(3));
    }

    fn made(
        rt: HostRuntime,
        calls: Vec<Call>,
    ) -> Result<History<FilledTable, PrintedTable, LazyTable<FromKey>, FieldRule>, Fail> {
        let receiver = LazyTable::new(from_key()?);
        Ok(run(
            (filled()?, PrintedTable),
            (receiver, FieldRule),
            calls,
            Vec::new(rt.alloc()),
        )?)
    }

    // What the receiver of the worked history answers: true readings, two that are spoilt behind an altered word, seventeen rows after a loss.
    fn worked_answers(heap: Global) -> Result<Vec<Answer>, AllocError> {
        let mut answers = Vec::new(heap);
        answers.extend([7, 0x1234, 940, 685, 937, 1000].map(Answer::Reading))?;
        answers.extend((1..=17u8).map(Answer::Withheld))?;
        answers.extend([1019, 943].map(Answer::Reading))?;
        Ok(answers)
    }

    // The answers of a log, in order.
    fn answers(heap: Global, log: &[Entry]) -> Result<Vec<Answer>, AllocError> {
        let mut answers = Vec::new(heap);
        for entry in log {
            if let Entry::OfReceiver(ReceiverEntry::Received { answer, .. }) = entry {
                answers.push(*answer)?;
            }
        }
        Ok(answers)
    }

    // The verdicts of a log, in order.
    fn verdicts(heap: Global, log: &[Entry]) -> Result<Vec<Verdict>, AllocError> {
        let mut verdicts = Vec::new(heap);
        for entry in log {
            if let Entry::OfReceiver(ReceiverEntry::Finished { verdict, .. }) = entry {
                verdicts.push(*verdict)?;
            }
        }
        Ok(verdicts)
    }

    #[test]
    fn the_worked_history_has_the_answers_of_the_reference(rt: HostRuntime) -> Result<(), Fail> {
        let heap = rt.alloc();
        let history = worked_history(heap)?;
        assert_eq!(rt; history.log.len(), 67);
        assert!(rt; answers(heap, &history.log)? == worked_answers(heap)?);
        assert!(rt;
            verdicts(heap, &history.log)?.as_slice()
                == [Verdict::Agrees, Verdict::Differs, Verdict::Broken].as_slice()
        );
        assert!(rt; matches!(history.sealer, Sealer::Ready(_)));
        assert_eq!(rt; history.receiver.reception(), Reception::Whole);
        Ok(())
    }

    #[test]
    fn a_nonce_is_six_bytes_low_bytes_first(rt: HostRuntime) -> Result<(), Fail> {
        assert!(rt; nonce(1, 2)?.bytes() == NONCE);
        assert!(rt; nonce(0x01020304, 0)?.bytes() == [4, 3, 2, 1, 0, 0]);
        Ok(())
    }

    #[test]
    fn an_issuer_issues_every_number_once_and_then_refuses(rt: HostRuntime) -> Result<(), Fail> {
        let mut issuer = Issuer::new(0x01020304);
        for message in 0..=65535u16 {
            let [low, high] = message.to_le_bytes();
            assert!(rt; issuer.draw()?.bytes() == [4, 3, 2, 1, low, high]);
        }
        assert_eq!(rt; number(issuer.draw()), Some(4));
        assert_eq!(rt; number(issuer.draw()), Some(4));
        Ok(())
    }

    #[test]
    fn an_issuer_goes_on_where_another_left_off(rt: HostRuntime) -> Result<(), Fail> {
        let mut issuer = Issuer::resumed(0x01020304, 65_535);
        assert!(rt; issuer.draw()?.bytes() == [4, 3, 2, 1, 0xFF, 0xFF]);
        assert_eq!(rt; issuer.issued(), 65_536);
        assert_eq!(rt; number(issuer.draw()), Some(4));
        assert_eq!(rt; issuer.issued(), 65_536);
        assert_eq!(rt; number(Issuer::resumed(1, u32::MAX).draw()), Some(4));
        Ok(())
    }

    #[test]
    fn a_full_message_refuses_words_and_keeps_its_tag(rt: HostRuntime) -> Result<(), Fail> {
        let mut message = ReadySealer::new(filled()?, PrintedTable).begin(nonce(1, 2)?);
        for plain in 0..=65535u16 {
            message.word(SEALED, plain)?;
        }
        assert_eq!(rt; number(message.word(SEALED, 0x0123)), Some(5));
        let (sealer, entry) = Sealer::Open(message).take(SealerCall::Word {
            mask: OPEN,
            plain: 0x0123,
        });
        assert!(rt;
            matches!(
                entry,
                SealerEntry::Refused {
                    mask: OPEN,
                    plain: 0x0123,
                    fault: Fault::Full
                }
            )
        );
        let Sealer::Open(message) = sealer else {
            return Err(Fail::new("the message is not open"));
        };
        let (_, tag) = message.finish();
        assert!(rt;
            tag == [
                0xF142, 0xFF0B, 0xCBF4, 0x947A, 0xE5DB, 0x1811, 0xB471, 0x3B32,
            ]
        );
        Ok(())
    }

    // What was sealed in a message that was given up leaves no trace.
    #[test]
    fn a_message_has_the_wire_words_and_the_tag_of_the_reference(
        rt: HostRuntime,
    ) -> Result<(), Fail> {
        seal_words(&rt, ReadySealer::new(from_key()?, PrintedTable))?;
        let sealer = ReadySealer::new(LazyTable::new(from_key()?), FieldRule);
        let mut message = sealer.begin(nonce(1, 0)?);
        assert_eq!(rt; message.word(SEALED, 0x0123), Ok(0x9531));
        seal_words(&rt, message.abandon())
    }

    #[test]
    fn a_new_receiver_hands_out_the_eighteenth_sealed_word(rt: HostRuntime) -> Result<(), Fail> {
        let mut receiver = Receiver::new(from_key()?, FieldRule);
        catch_up(&rt, &mut receiver);
        assert_eq!(rt; receiver.word(SEALED, 0x0123), Answer::Reading(0xD5D3));
        assert_eq!(rt; receiver.word(OPEN, 0x4567), Answer::Reading(0x4567));
        assert_eq!(rt; receiver.word(PART, 0x89AB), Answer::Reading(0x8FEB));
        Ok(())
    }

    #[test]
    fn a_receiver_goes_on_where_another_stood(rt: HostRuntime) -> Result<(), Fail> {
        let mut receiver = Receiver::new(from_key()?, FieldRule);
        receive_words(&rt, &mut receiver)?;
        let whole = resumed(&receiver)?;
        assert!(rt; whole.is_some());
        if let Some(mut whole) = whole {
            assert_eq!(rt; whole.reception(), Reception::Whole);
            finish(&rt, &mut whole, TAG, Verdict::Agrees);
        }
        Ok(())
    }

    #[test]
    fn a_receiver_goes_on_with_a_row_of_sixteen_and_with_none_above(
        rt: HostRuntime,
    ) -> Result<(), Fail> {
        let lost = Reception::Lost(16);
        let receiver = Receiver::resumed(filled()?, PrintedTable, Registers::new(), lost);
        assert!(rt; receiver.is_some());
        if let Some(mut receiver) = receiver {
            assert_eq!(rt; receiver.word(SEALED, 0x0123), Answer::Withheld(17));
            assert_eq!(rt; receiver.reception(), Reception::Caught);
        }
        let none = Receiver::resumed(
            filled()?,
            PrintedTable,
            Registers::new(),
            Reception::Lost(17),
        );
        assert!(rt; none.is_none());
        Ok(())
    }

    #[test]
    fn a_word_that_is_not_sealed_whole_sets_the_row_back(rt: HostRuntime) -> Result<(), Fail> {
        let mut receiver = Receiver::new(LazyTable::new(filled()?), PrintedTable);
        for mask in [OPEN, PART] {
            assert_eq!(rt; receiver.word(SEALED, 0x0123), Answer::Withheld(1));
            assert_eq!(rt; receiver.word(SEALED, 0x0123), Answer::Withheld(2));
            assert_eq!(rt; receiver.word(mask, 0x0123), Answer::Withheld(0));
        }
        catch_up(&rt, &mut receiver);
        assert_eq!(rt; receiver.word(SEALED, 0x0123), Answer::Reading(0xD5D3));
        Ok(())
    }

    fn lose(rt: &impl Abort, lost: u16) -> Result<(), Fail> {
        let mut message = ReadySealer::new(filled()?, FieldRule).begin(nonce(1, 2)?);
        let mut receiver = Receiver::new(LazyTable::new(from_key()?), PrintedTable);
        receiver.begin(&NONCE)?;
        pass_words(rt, &mut message, &mut receiver)?;
        for plain in 0..lost {
            message.word(SEALED, plain)?;
        }
        receiver.break_off();
        for row in 1..=17u8 {
            let wire = message.word(SEALED, 0x4567)?;
            assert_eq!(rt; receiver.word(SEALED, wire), Answer::Withheld(row));
        }
        pass_words(rt, &mut message, &mut receiver)
    }

    // A receiver that broke off goes on from the eighteenth sealed word as one that lost nothing, were words lost or not.
    #[test]
    fn readings_go_on_after_a_loss(rt: HostRuntime) -> Result<(), Fail> {
        lose(&rt, 0)?;
        lose(&rt, 1)?;
        lose(&rt, 40)
    }

    #[test]
    fn a_refused_nonce_changes_nothing(rt: HostRuntime) -> Result<(), Fail> {
        let mut receiver = Receiver::new(filled()?, PrintedTable);
        assert_eq!(rt; receiver.word(SEALED, 0x0123), Answer::Withheld(1));
        refuse_nonces(&rt, &mut receiver);
        assert_eq!(rt; receiver.reception(), Reception::Lost(1));
        receive_words(&rt, &mut receiver)?;
        refuse_nonces(&rt, &mut receiver);
        finish(&rt, &mut receiver, TAG, Verdict::Agrees);
        assert_eq!(rt; receiver.begin(&[]), Ok(()));
        assert_eq!(rt; receiver.word(SEALED, 0x0123), Answer::Reading(0x80C5));
        assert_eq!(rt; receiver.begin(&[1; 32]), Ok(()));
        assert_eq!(rt; receiver.word(SEALED, 0x0123), Answer::Reading(0xBCE5));
        Ok(())
    }

    #[test]
    fn a_tag_agrees_or_differs_or_ends_a_broken_message(rt: HostRuntime) -> Result<(), Fail> {
        let mut receiver = Receiver::new(LazyTable::new(from_key()?), FieldRule);
        finish(&rt, &mut receiver, TAG, Verdict::Broken);
        receive_words(&rt, &mut receiver)?;
        finish(&rt, &mut receiver, TAG, Verdict::Agrees);
        receive_words(&rt, &mut receiver)?;
        let mut turned = TAG;
        turned[7] ^= 0x8000;
        finish(&rt, &mut receiver, turned, Verdict::Differs);
        receive_words(&rt, &mut receiver)?;
        receiver.break_off();
        finish(&rt, &mut receiver, TAG, Verdict::Broken);
        receive_words(&rt, &mut receiver)?;
        receiver.break_off();
        catch_up(&rt, &mut receiver);
        finish(&rt, &mut receiver, TAG, Verdict::Broken);
        Ok(())
    }

    #[test]
    fn a_log_notes_calls_out_of_turn(rt: HostRuntime) -> Result<(), Fail> {
        let begin = SealerCall::Begin(nonce(1, 2)?);
        let again = SealerCall::Begin(nonce(1, 3)?);
        let calls = vec![in rt.alloc();
            Call::OnSealer(FIRST_WORD),
            Call::OnSealer(SealerCall::Finish),
            Call::OnSealer(SealerCall::Abandon),
            Call::OnSealer(begin),
            Call::OnSealer(again),
            Call::OnSealer(FIRST_WORD),
            Call::OnSealer(SealerCall::Finish),
        ]?;
        let History {
            sealer,
            receiver,
            log,
        } = made(rt, calls)?;
        let noted = [
            SealerEntry::OutOfTurn(Unmade::Word {
                mask: SEALED,
                plain: 0x0123,
            }),
            SealerEntry::OutOfTurn(Unmade::Finish),
            SealerEntry::OutOfTurn(Unmade::Abandon),
            SealerEntry::Begun(NONCE),
            SealerEntry::OutOfTurn(Unmade::Begin([1, 0, 0, 0, 3, 0])),
            SealerEntry::Sealed {
                mask: SEALED,
                plain: 0x0123,
                wire: 0xF8A5,
            },
            SealerEntry::Finished(FIRST_WORD_TAG),
        ];
        assert!(rt; log.as_slice() == noted.map(Entry::OfSealer).as_slice());
        assert_eq!(rt; receiver.reception(), Reception::Lost(0));
        match sealer {
            Sealer::Ready(ready) => seal_words(&rt, ready),
            Sealer::Open(_) => Err(Fail::new("a message is open")),
        }
    }

    // What the log of the next test notes of the receiver.
    fn noted_of_refused(heap: Global) -> Result<[ReceiverEntry; 6], AllocError> {
        let received = |answer| ReceiverEntry::Received {
            mask: SEALED,
            wire: 0x0123,
            answer,
        };
        Ok([
            ReceiverEntry::Refused {
                nonce: [1].to_vec(heap)?,
                fault: Fault::Nonce,
            },
            received(Answer::Withheld(1)),
            ReceiverEntry::Begun(Vec::new(heap)),
            received(Answer::Reading(0x80C5)),
            ReceiverEntry::Finished {
                tag: TAG,
                verdict: Verdict::Differs,
            },
            ReceiverEntry::BrokenOff,
        ])
    }

    #[test]
    fn a_log_notes_refused_calls(rt: HostRuntime) -> Result<(), Fail> {
        let first = SealerCall::Begin(nonce(1, 2)?);
        let refused = ReceiverCall::Begin([1].to_vec(rt.alloc())?);
        let calls = vec![in rt.alloc();
            Call::OnSealer(first),
            Call::OnReceiver(refused),
            Call::OnReceiver(WIRE_WORD),
            Call::OnReceiver(ReceiverCall::Begin(Vec::new(rt.alloc()))),
            Call::OnReceiver(WIRE_WORD),
            Call::OnReceiver(ReceiverCall::Finish(TAG)),
            Call::OnReceiver(ReceiverCall::Break),
        ]?;
        let History {
            sealer,
            receiver,
            log,
        } = made(rt, calls)?;
        let noted = noted_of_refused(rt.alloc())?;
        let Some((_, heard)) = log.as_slice().split_first() else {
            return Err(Fail::new("the log is empty"));
        };
        assert!(rt; heard == noted.map(Entry::OfReceiver).as_slice());
        assert_eq!(rt; receiver.reception(), Reception::Lost(0));
        match sealer {
            Sealer::Ready(_) => Err(Fail::new("no message is open")),
            Sealer::Open(mut message) => {
                assert_eq!(rt; message.word(SEALED, 0x0123), Ok(0xF8A5));
                Ok(())
            },
        }
    }
}
