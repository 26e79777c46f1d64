// Lists, tables and the reversal, run on examples.
#![tactic(auto)]

#[cfg(test)]
mod tests {
    use storage::lists::PushList;
    use storage::maps::SecondaryMap;
    use storage::reverse::reverse;

    #[derive(Clone, Copy, PartialEq, Eq, Debug)]
    struct Line {
        inst: u16,
        user: Option<u16>,
    }

    #[test]
    fn full_list_gives_the_element_back(rt: HostRuntime) {
        let mut places = [9u32, 8, 7];
        let mut list = PushList::new(&mut places[0..2]);
        assert_eq!(rt; list.push(1), Ok(()));
        assert!(rt; !list.is_full());
        assert_eq!(rt; list.push(2), Ok(()));
        assert!(rt; list.is_full());
        assert_eq!(rt; list.push(3), Err(3));
        assert_eq!(rt; list.len(), 2);
        assert_eq!(rt; list.get(1), Some(2));
        assert_eq!(rt; list.get(2), None);
        assert_eq!(rt; places, [1, 2, 7], "what stands beyond the list stays");
    }

    #[test]
    fn list_of_any_element(rt: HostRuntime) {
        let none = Line {
            inst: 0,
            user: None,
        };
        let mut places = [none; 4];
        let mut list = PushList::new(&mut places);
        assert!(rt; list.is_empty());
        let first = Line {
            inst: 3,
            user: None,
        };
        let second = Line {
            inst: 0,
            user: Some(3),
        };
        assert_eq!(rt; list.push(first), Ok(()));
        assert_eq!(rt; list.push(second), Ok(()));
        list.reverse();
        assert_eq!(rt; list.pop(), Some(first));
        assert_eq!(rt; list.pop(), Some(second));
        assert_eq!(rt; list.pop(), None);
        assert_eq!(rt; list.capacity(), 4);
        assert_eq!(rt; places, [second, first, none, none]);
    }

    #[test]
    fn cleared_list_keeps_its_storage(rt: HostRuntime) {
        let mut places = [0u8; 2];
        let mut list = PushList::new(&mut places);
        assert_eq!(rt; list.push(5), Ok(()));
        list.clear();
        assert!(rt; list.is_empty());
        assert_eq!(rt; list.push(6), Ok(()));
        assert_eq!(rt; list.as_slice(), [6].as_slice());
    }

    #[test]
    fn table_answers_its_default_beyond_the_end(rt: HostRuntime) {
        let mut places = [1u16, 2, 3];
        let mut map = SecondaryMap::with_default(&mut places, 7);
        assert_eq!(rt; map.get(0), 7);
        map.set(2, 5);
        map.set(3, 6);
        assert_eq!(rt; map.get(2), 5);
        assert_eq!(rt; map.get(3), 7);
        assert_eq!(rt; map.capacity(), 3);
        map.clear();
        assert_eq!(rt; map.get(2), 7);
    }

    #[test]
    fn reversal_of_odd_and_even_lengths(rt: HostRuntime) {
        let mut odd = [1u32, 2, 3, 4, 5];
        reverse(&mut odd);
        assert_eq!(rt; odd, [5, 4, 3, 2, 1]);
        let mut even = ['a', 'b', 'c', 'd'];
        reverse(&mut even);
        assert_eq!(rt; even, ['d', 'c', 'b', 'a']);
        let mut none: [u8; 0] = [];
        reverse(&mut none);
        assert_eq!(rt; none, []);
    }
}
