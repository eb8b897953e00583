// Mail that another program made: it is read, its tags are right, and it is written again with the same bytes.
#![tactic(auto)]

#[cfg(test)]
mod mail;

#[cfg(test)]
mod tests {
    use super::mail::{CHANGED, CHECKED, COMMITTED, PREPARED, VIEWED};
    use counter::Checker;
    use counters::{HmacSha256, TagChecker};
    use drafts::{PrepareDraft, write};
    use message::Message;
    use std::alloc::{AllocError, Global};
    use std::test::Fail;
    use terms::{GroupSize, Order, PREPARE_BYTES, View};
    use texts::{HexWord, read_hex};

    // The key counts up from 0.
    const KEY: [u8; 32] = [
        0, 1, 2, 3, 4, 5, 6, 7, 8, 9, 10, 11, 12, 13, 14, 15, 16, 17, 18, 19, 20, 21, 22, 23, 24,
        25, 26, 27, 28, 29, 30, 31,
    ];

    // The type of the message that is written in hexadecimal, and whether its tag is right.
    fn read(heap: Global, hex: &[u8]) -> Result<Option<(u32, bool)>, AllocError> {
        let Some(mail) = read_hex(heap, hex)? else {
            return Ok(None);
        };
        let Ok(message) = Message::read(&mail) else {
            return Ok(None);
        };
        let Ok(group) = GroupSize::new(3) else {
            return Ok(None);
        };
        let Ok(checker) = TagChecker::<HmacSha256>::new(3, &KEY) else {
            return Ok(None);
        };
        let right = checker.check(message.statement(group), message.tag());
        Ok(Some((message.type_number(), right)))
    }

    #[test]
    fn reads_each_kind(rt: HostRuntime) -> Result<(), Fail> {
        let heap = rt.alloc();
        assert_eq!(rt; read(heap, PREPARED)?, Some((1, true)));
        assert_eq!(rt; read(heap, COMMITTED)?, Some((2, true)));
        assert_eq!(rt; read(heap, CHECKED)?, Some((3, true)));
        assert_eq!(rt; read(heap, CHANGED)?, Some((4, true)));
        assert_eq!(rt; read(heap, VIEWED)?, Some((5, true)));
        Ok(())
    }

    #[test]
    fn writes_the_same_bytes(rt: HostRuntime) -> Result<(), Fail> {
        let word = HexWord::of(PREPARED).expect(&rt, "hexadecimal");
        let mail = word
            .array::<PREPARE_BYTES>()
            .expect(&rt, "the bytes of a PREPARE");
        let Message::Prepare(prepare) = Message::read(&mail).expect(&rt, "a message") else {
            return Ok(());
        };
        assert_eq!(rt; prepare.view, View(2));
        assert_eq!(rt; prepare.order, Order(5));
        assert_eq!(rt; prepare.request().value, 600);
        let draft = PrepareDraft::from(&prepare);
        let mut out = [0; PREPARE_BYTES];
        let tag = prepare.tag;
        let length = write(&draft, tag, &mut out);
        assert_eq!(rt; length, Some(PREPARE_BYTES));
        assert_eq!(rt; out.as_slice(), mail.as_slice());
        Ok(())
    }
}
