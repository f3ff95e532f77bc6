//! The greatest sum of placed rates.
ghost use Rattle.std.specs.Prelude.{◌≡◌, ◌≤◌, length, map, get_or};
ghost use Rattle.std.specs.List.{fold, range_with_len};
ghost use Rattle.net_schedule.specs.Rings.{most_quanta};
ghost use Rattle.net_run.specs.Peaks.{higher};

/// A sum of the rates of placed entries, and the quantum that carries it.
#[derive(Clone, Copy, Debug, PartialEq, Eq)]
pub struct Peak {
    pub sum: u64,
    pub quantum: u32,
}

impl Peak {
    /// The first of the greatest among a peak and what a row has.
    pub(crate) fn or_higher(self, row: &[u64]) -> Peak
        requires { length row.now ≤ most_quanta }
        ensures { result ≡ fold higher self (map (λ k. record { sum = get_or row.now k 0; quantum = k })
            (range_with_len 0 (length row.now))) }
    {
        let mut peak = self;
        for k in 0..row.len() {
            peak = peak.or_higher_one(Peak {
                sum: row[k],
                quantum: k as u32,
            });
        }
        peak
    }

    /// The greater of two, and the first if they are as great.
    fn or_higher_one(self, other: Peak) -> Peak
        ensures { result ≡ higher self other }
    {
        if self.sum < other.sum { other } else { self }
    }
}
