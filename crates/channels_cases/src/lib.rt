//! Channels filled and emptied.
#![tactic(auto)]

#[cfg(test)]
mod tests {
    use channels::channels::Channels;
    use events::message::Message;
    use std::test::Fail;

    fn message(label: u8) -> Message {
        Message { label, tick: 7 }
    }

    fn fill(channels: &mut Channels, from: u8, to: u8) -> Result<(), Fail> {
        for label in 0..8 {
            channels.send(from, to, message(label))?;
        }
        Ok(())
    }

    #[test]
    fn ninth_is_given_back(rt: HostRuntime) -> Result<(), Fail> {
        let mut channels = Channels::empty();
        fill(&mut channels, 5, 5)?;
        assert_eq!(rt; channels.count(5, 5), 8);
        assert_eq!(rt; channels.send(5, 5, message(8)), Err(message(8)));
        assert_eq!(rt; channels.count(5, 5), 8);
        assert_eq!(rt; channels.oldest(5, 5), Some(message(0)));
        Ok(())
    }

    #[test]
    fn order_is_kept(rt: HostRuntime) -> Result<(), Fail> {
        let mut channels = Channels::empty();
        fill(&mut channels, 0, 1)?;
        // round the row: slot 0 is used again
        assert_eq!(rt; channels.take(0, 1), Some(message(0)));
        channels.send(0, 1, message(8))?;
        for label in 1..9 {
            assert_eq!(rt; channels.take(0, 1), Some(message(label)));
        }
        assert_eq!(rt; channels.take(0, 1), None);
        Ok(())
    }

    #[test]
    fn other_pairs_are_untouched(rt: HostRuntime) -> Result<(), Fail> {
        let mut channels = Channels::empty();
        channels.send(1, 0, message(9))?;
        fill(&mut channels, 0, 1)?;
        for from in 0..6 {
            for to in 0..6 {
                let waiting = match (from, to) {
                    (0, 1) => 8,
                    (1, 0) => 1,
                    _ => 0,
                };
                assert_eq!(rt; channels.count(from, to), waiting);
            }
        }
        assert_eq!(rt; channels.take(1, 0), Some(message(9)));
        Ok(())
    }

    #[test]
    fn no_such_channel(rt: HostRuntime) {
        let mut channels = Channels::empty();
        assert_eq!(rt; channels.send(0, 6, message(1)), Err(message(1)));
        assert_eq!(rt; channels.send(6, 0, message(1)), Err(message(1)));
        assert_eq!(rt; channels.count(0, 6), 0);
        assert_eq!(rt; channels.oldest(6, 0), None);
        assert_eq!(rt; channels.take(0, 6), None);
    }
}
