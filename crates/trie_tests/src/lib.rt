// The trie engine beside the scan engine: one list of calls, the same answers.
#![tactic(auto)]

#[cfg(test)]
mod tests {
    use engine_runs::calls::{Answer, Call};
    use engine_runs::runs::run_both;
    use engines::rows::{RowTable, Rows};
    use engines::scan::Scan;
    use fields::faults::Fault;
    use fields::kinds::Kind;
    use fields::prefixes::{Prefix, PrefixRow};
    use std::alloc::Global;
    use std::process::Abort;
    use std::test::Fail;
    use trie::tries::Trie;

    fn prefix(address: u32, length: u8) -> Result<Prefix, Fault> {
        <Prefix as Kind>::form(PrefixRow { address, length })
    }

    // How many labels a match found, none where the call asks for no labels, or a refusal.
    fn told(answer: Answer<Prefix>) -> Result<Option<usize>, Fault> {
        match answer {
            Answer::Emptied => Ok(None),
            Answer::Set(result) => result.map(|_| None),
            Answer::Cleared(result) => result.map(|_| None),
            Answer::Matched(result, _) => result.map(Some),
        }
    }

    fn alike<T: Rows<PrefixRow> + Drop>(
        rt: &impl Abort,
        heap: Global,
        table: T,
    ) -> Result<(), Fail> {
        let ten = prefix(0x0A00_0000, 8)?;
        let calls = [
            Call::Set(3, ten),
            Call::Set(1, prefix(0, 0)?),
            Call::Set(95, prefix(0x0A01_0000, 16)?),
            Call::Set(3, ten),
            Call::Set(4, ten),
            Call::Set(96, ten),
            Call::Match(0x0A01_0203),
            Call::Match(0x0B00_0000),
            Call::Clear(3),
            Call::Clear(3),
            Call::Match(0x0A01_0203),
        ];
        let wanted = [
            Ok(None),
            Ok(None),
            Ok(None),
            Err(Fault::Full(3)),
            Err(Fault::Elsewhere(3)),
            Err(Fault::Label(96)),
            Ok(Some(3)),
            Ok(Some(1)),
            Ok(None),
            Err(Fault::Vacant(3)),
            Ok(Some(2)),
        ];
        let mut scan = Scan::over(table);
        let mut trie = Trie::new();
        let both = run_both(heap, &mut scan, &mut trie, &calls)?;
        assert!(rt; both.first.iter().map(|answer| told(*answer)).eq(wanted));
        assert!(rt; both.second.iter().map(|answer| told(*answer)).eq(wanted));
        Ok(())
    }

    #[test]
    fn scan_and_trie(rt: HostRuntime) -> Result<(), Fail> {
        let mut rows = [PrefixRow {
            address: 0,
            length: 0,
        }; 96];
        alike(&rt, rt.alloc(), RowTable::form(&mut rows)?)
    }
}
