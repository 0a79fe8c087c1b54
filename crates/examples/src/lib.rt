//! Worked examples of the calls of the cipher and its functions: sound functions of each make, and as tests each refusal, each edge value, and
//! what is left afterwards.
#![tactic(auto)]

pub mod sound;

#[cfg(test)]
mod tests {
    use crate::sound;
    use functions::{FieldRule, FilledTable, FromKey, GivenTable, LazyTable, PrintedTable};
    use sss::{
        Fault, KeyedFunction, Layer, MaskedWord, OPEN, Registers, SEALED, open_message,
        seal_message,
    };
    use std::test::Fail;

    const KEY: [u8; 17] = [3, 1, 4, 1, 5, 9, 2, 6, 5, 3, 5, 8, 9, 7, 9, 3, 2];

    #[test]
    fn faults_have_their_numbers(rt: HostRuntime) {
        assert_eq!(rt; Fault::Key.number(), 1);
        assert_eq!(rt; Fault::Table.number(), 2);
        assert_eq!(rt; Fault::Nonce.number(), 3);
        assert_eq!(rt; Fault::Nonce.place(), 0);
        assert_eq!(rt; Fault::Table.layer(), Layer::Key);
        assert_eq!(rt; Fault::Nonce.layer(), Layer::Message);
    }

    #[test]
    fn the_faults_of_a_sealer_have_their_numbers(rt: HostRuntime) {
        assert_eq!(rt; Fault::Exhausted.number(), 4);
        assert_eq!(rt; Fault::Full.number(), 5);
        assert_eq!(rt; Fault::Exhausted.place(), 0);
        assert_eq!(rt; Fault::Full.place(), 0);
        assert_eq!(rt; Fault::Exhausted.layer(), Layer::Message);
        assert_eq!(rt; Fault::Full.layer(), Layer::Message);
    }

    #[test]
    fn the_faults_of_whole_messages_have_their_numbers(rt: HostRuntime) {
        let faults = [
            (Fault::Input, 6),
            (Fault::Masks, 7),
            (Fault::Output, 8),
            (Fault::TagLength, 9),
            (Fault::TagDiffers, 10),
        ];
        for (fault, number) in faults {
            assert_eq!(rt; fault.number(), number);
            assert_eq!(rt; fault.place(), 0);
            assert_eq!(rt; fault.layer(), Layer::Message);
        }
    }

    #[test]
    fn a_refused_key_keeps_the_old_function(rt: HostRuntime) {
        let mut f = FromKey::new();
        assert_eq!(rt; f.apply(0x1234), 0x1234);
        assert_eq!(rt; f.load(&KEY[0..16]), Ok(()));
        let image = f.apply(0x1234);
        assert_eq!(rt; f.load(&KEY), Err(Fault::Key));
        assert_eq!(rt; f.load(&[]), Err(Fault::Key));
        assert_eq!(rt; f.apply(0x1234), image);
        let mut filled = FilledTable::new();
        assert_eq!(rt; filled.load(&KEY), Err(Fault::Key));
        assert_eq!(rt; filled.apply(0x1234), 0x1234);
        assert_eq!(rt; filled.load(&KEY[0..1]), Ok(()));
        assert_eq!(rt; filled.load(&KEY[0..16]), Ok(()));
        assert_eq!(rt; filled.apply(0x1234), image);
    }

    #[test]
    fn a_table_is_taken_where_it_keeps_the_law(rt: HostRuntime) -> Result<(), Fail> {
        let mut filled = FilledTable::of(&KEY[0..5])?;
        let mut table = [0u16; 256];
        table.copy_from_slice(filled.entries());
        let mut given = GivenTable::new();
        assert_eq!(rt; given.load(&table[0..255]), Err(Fault::Table));
        assert_eq!(rt; given.load(&[0; 257]), Err(Fault::Table));
        assert_eq!(rt; given.apply(0xABCD), 0xABCD);
        assert_eq!(rt; given.load(&table), Ok(()));
        assert_eq!(rt; given.apply(0xABCD), filled.apply(0xABCD));
        table[7] ^= 0x0100;
        assert_eq!(rt; given.load(&table), Err(Fault::Table));
        assert_eq!(rt; given.apply(0x07CD), filled.apply(0x07CD));
        table[7] ^= 0x0101;
        assert_eq!(rt; given.load(&table), Ok(()));
        assert_eq!(rt; given.apply(0x07CD), filled.apply(0x07CD) ^ 1);
        Ok(())
    }

    #[test]
    fn a_lazy_table_remembers_what_was_asked(rt: HostRuntime) -> Result<(), Fail> {
        let mut lazy = LazyTable::new(LazyTable::new(FromKey::of(&[0x00])?));
        assert_eq!(rt; lazy.remembered(0x01), None);
        assert_eq!(rt; lazy.apply(0x0102), 0xD7EF);
        assert_eq!(rt; lazy.remembered(0x01), Some(0xD7EF ^ 0x0102));
        assert_eq!(rt; lazy.remembered(0x02), None);
        assert_eq!(rt; lazy.apply(0x0102), 0xD7EF);
        let old = lazy.load(LazyTable::new(FromKey::new()));
        assert_eq!(rt; old.remembered(0x01), Some(0xD7EF ^ 0x0102));
        assert_eq!(rt; lazy.remembered(0x01), None);
        assert_eq!(rt; lazy.apply(0x0102), 0x0102);
        Ok(())
    }

    // The images of a word from each sixteenth of them.
    fn images<K: KeyedFunction + Drop>(mut f: K) -> [u16; 16] {
        let mut images = [0; 16];
        for (word, image) in (0u16..16).zip(&mut images) {
            *image = f.apply(word << 12);
        }
        images
    }

    #[test]
    fn functions_of_one_table_answer_alike(rt: HostRuntime) {
        let due = images(sound::keyed_from_key());
        assert!(rt; due != images(sound::fresh_from_key()));
        assert!(rt; images(sound::keyed_filled()) == due);
        assert!(rt; images(sound::keyed_given()) == due);
        assert!(rt; images(sound::refused_from_key()) == due);
        assert!(rt; images(sound::refused_filled()) == due);
        assert!(rt; images(sound::refused_given()) == due);
        assert!(rt; images(sound::lazy_from_key()) == due);
        assert!(rt; images(sound::lazy_filled()) == due);
        assert!(rt; images(sound::lazy_given()) == due);
        assert!(rt; images(sound::lazy_asked()) == due);
        assert!(rt; images(sound::lazy_loaded()) == due);
    }

    #[test]
    fn a_nonce_that_does_not_fit_changes_nothing(rt: HostRuntime) {
        let mut f = FilledTable::new();
        let mut registers = Registers::new();
        assert_eq!(rt; registers.begin(&mut f, &PrintedTable, &[]), Ok(()));
        let begun = registers.cipher_words();
        let checked = registers.check_words();
        assert_eq!(rt;
            registers.begin(&mut f, &PrintedTable, &[1; 33]),
            Err(Fault::Nonce)
        );
        assert_eq!(rt;
            registers.begin(&mut f, &PrintedTable, &[1; 34]),
            Err(Fault::Nonce)
        );
        assert_eq!(rt;
            registers.begin(&mut f, &PrintedTable, &[1; 3]),
            Err(Fault::Nonce)
        );
        assert!(rt; registers.cipher_words() == begun);
        assert!(rt; registers.check_words() == checked);
        assert_eq!(rt; registers.begin(&mut f, &PrintedTable, &[1; 32]), Ok(()));
        assert!(rt; registers.cipher_words() != begun);
    }

    #[test]
    fn a_message_comes_back(rt: HostRuntime) -> Result<(), Fail> {
        let mut sealer = FilledTable::of(&KEY[0..9])?;
        let mut opener = FromKey::of(&KEY[0..9])?;
        let plain = [
            MaskedWord {
                mask: SEALED,
                text: 0x0123,
            },
            MaskedWord {
                mask: OPEN,
                text: 0x4567,
            },
            MaskedWord {
                mask: 0x0FF0,
                text: 0x89AB,
            },
        ];
        let mut words = plain;
        let tag = seal_message(&mut sealer, &PrintedTable, &[1, 0, 0, 0, 2, 0], &mut words)?;
        assert!(rt; words != plain);
        assert_eq!(rt; words[1], plain[1]);
        let drawn = open_message(&mut opener, &FieldRule, &[1, 0, 0, 0, 2, 0], &mut words)?;
        assert!(rt; words == plain);
        assert!(rt; drawn == tag);
        assert_eq!(rt;
            seal_message(&mut sealer, &PrintedTable, &[1], &mut words).is_err(),
            true
        );
        assert!(rt; words == plain);
        Ok(())
    }
}
