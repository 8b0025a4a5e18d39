//! Tests of the register at each kind of key: small and full, over a stranger's memory and over none.
#![tactic(auto)]

#[cfg(test)]
mod scenarios;

#[cfg(test)]
mod tests {
    use crate::scenarios::*;
    use register::execution::ExecutionKey;
    use register::price::PriceKey;
    use register::publication::PublicationKey;

    fn price(day: u32, security: u8, price: u32, serial: u32) -> PriceKey {
        PriceKey {
            day,
            security,
            price,
            serial,
        }
    }

    fn execution(day: u32, security: u8, moment: u64, serial: u32) -> ExecutionKey {
        ExecutionKey {
            day,
            security,
            moment,
            serial,
        }
    }

    fn publication(moment: u64, day: u32, serial: u32) -> PublicationKey {
        PublicationKey {
            moment,
            day,
            serial,
        }
    }

    #[test]
    fn prices_small(rt: HostRuntime) {
        small(
            &rt,
            [
                price(1, 9, 9, 9),
                price(2, 1, 5, 8),
                price(2, 1, 6, 1),
                price(2, 1, 6, 2),
            ],
        );
    }

    #[test]
    fn executions_small(rt: HostRuntime) {
        small(
            &rt,
            [
                execution(1, 9, 9, 9),
                execution(2, 1, 5, 8),
                execution(2, 2, 1, 1),
                execution(2, 2, 1, 2),
            ],
        );
    }

    #[test]
    fn publications_small(rt: HostRuntime) {
        small(
            &rt,
            [
                publication(1, 9, 9),
                publication(2, 1, 8),
                publication(2, 2, 1),
                publication(2, 2, 2),
            ],
        );
    }

    #[test]
    fn prices_full(rt: HostRuntime) {
        full(
            &rt,
            [
                price(1, 1, 1, 1),
                price(1, 1, 1, 2),
                price(1, 2, 0, 0),
                price(4_294_967_295, 63, 0, 0),
            ],
        );
    }

    #[test]
    fn executions_full(rt: HostRuntime) {
        full(
            &rt,
            [
                execution(1, 1, 1, 1),
                execution(1, 1, 2, 0),
                execution(1, 2, 0, 0),
                execution(2, 0, 0, 0),
            ],
        );
    }

    #[test]
    fn publications_full(rt: HostRuntime) {
        full(
            &rt,
            [
                publication(1, 1, 1),
                publication(1, 1, 2),
                publication(1, 2, 0),
                publication(2, 0, 0),
            ],
        );
    }

    #[test]
    fn prices_without_memory(rt: HostRuntime) {
        without_memory(&rt, price(1, 1, 1, 1));
    }

    #[test]
    fn executions_without_memory(rt: HostRuntime) {
        without_memory(&rt, execution(1, 1, 1, 1));
    }

    #[test]
    fn publications_without_memory(rt: HostRuntime) {
        without_memory(&rt, publication(1, 1, 1));
    }

    #[test]
    fn prices_in_wild_memory(rt: HostRuntime) {
        in_wild_memory(
            &rt,
            [
                price(1, 1, 1, 1),
                price(1, 1, 1, 2),
                price(1, 1, 2, 1),
                price(2, 1, 1, 1),
            ],
        );
    }

    #[test]
    fn executions_in_wild_memory(rt: HostRuntime) {
        in_wild_memory(
            &rt,
            [
                execution(1, 1, 1, 1),
                execution(1, 1, 1, 2),
                execution(1, 1, 2, 1),
                execution(2, 1, 1, 1),
            ],
        );
    }

    #[test]
    fn publications_in_wild_memory(rt: HostRuntime) {
        in_wild_memory(
            &rt,
            [
                publication(1, 1, 1),
                publication(1, 1, 2),
                publication(1, 2, 1),
                publication(2, 1, 1),
            ],
        );
    }
}
