use core_host::List;
use service_reg::{Service, ServiceRefusal, ServiceUse, order};
use std::alloc::{AllocError, Global};

/// The services that an entry offers, needs and uses.
type Row = (&'static [Service], &'static [Service], &'static [Service]);

/// What every core needs.
const CORE: &[Service] = &[
    Service::Fetch,
    Service::Decoder,
    Service::RegFile,
    Service::Hazard,
];

/// Entries, and the order of their calls or the first fault.
const CASES: &[(&[Row], Result<&[u32], ServiceRefusal>)] = &[
    (&[(CORE, &[], &[])], Ok(&[0])),
    (
        &[
            (&[Service::Exec], &[Service::RegFile], &[]),
            (&[Service::Fetch], &[], &[]),
            (&[Service::Decoder], &[], &[]),
            (
                &[Service::RegFile, Service::Hazard],
                &[Service::Decoder],
                &[],
            ),
            (&[], &[], &[Service::Predict]),
        ],
        Ok(&[1, 2, 3, 0, 4]),
    ),
    (
        &[
            (CORE, &[], &[Service::System]),
            (&[Service::System], &[], &[]),
        ],
        Ok(&[1, 0]),
    ),
    (
        &[
            (CORE, &[Service::Exec], &[]),
            (&[Service::Exec], &[], &[]),
            (&[Service::Exec], &[], &[]),
        ],
        Ok(&[1, 2, 0]),
    ),
    (
        &[],
        Err(ServiceRefusal::Missing {
            service: Service::Fetch,
            by: None,
        }),
    ),
    (
        &[(&[Service::Hazard], &[], &[])],
        Err(ServiceRefusal::Missing {
            service: Service::Fetch,
            by: None,
        }),
    ),
    (
        &[(&[Service::Hazard, Service::Fetch], &[], &[])],
        Err(ServiceRefusal::Missing {
            service: Service::Decoder,
            by: None,
        }),
    ),
    (
        &[
            (&[Service::Decoder], &[], &[]),
            (&[Service::Fetch], &[], &[]),
        ],
        Err(ServiceRefusal::Missing {
            service: Service::RegFile,
            by: None,
        }),
    ),
    (
        &[(
            &[Service::RegFile, Service::Decoder, Service::Fetch],
            &[],
            &[],
        )],
        Err(ServiceRefusal::Missing {
            service: Service::Hazard,
            by: None,
        }),
    ),
    (
        &[
            (CORE, &[], &[]),
            (
                &[Service::Fetch],
                &[Service::Fetch, Service::DataBus, Service::System],
                &[],
            ),
            (&[], &[Service::System], &[]),
        ],
        Err(ServiceRefusal::Missing {
            service: Service::DataBus,
            by: Some(1),
        }),
    ),
    (
        &[
            (CORE, &[], &[]),
            (&[Service::Exec], &[], &[]),
            (&[Service::Fetch], &[], &[]),
        ],
        Err(ServiceRefusal::Double {
            service: Service::Fetch,
            a: 0,
            b: 2,
        }),
    ),
    (
        &[
            (CORE, &[], &[]),
            (&[Service::Hazard, Service::Exec], &[], &[]),
            (
                &[Service::System, Service::Predict, Service::Exec],
                &[],
                &[],
            ),
            (&[Service::System], &[], &[]),
            (&[Service::Predict], &[], &[]),
            (&[Service::Predict], &[], &[]),
        ],
        Err(ServiceRefusal::Double {
            service: Service::Predict,
            a: 2,
            b: 4,
        }),
    ),
    (
        &[
            (&[Service::System], &[], &[]),
            (CORE, &[Service::Hazard], &[]),
        ],
        Err(ServiceRefusal::CycleOfNeeds { plug: 1 }),
    ),
    (
        &[
            (CORE, &[], &[Service::Predict]),
            (&[Service::Predict], &[], &[Service::Fetch]),
        ],
        Err(ServiceRefusal::CycleOfNeeds { plug: 0 }),
    ),
    (
        &[
            (CORE, &[], &[]),
            (&[], &[Service::System], &[]),
            (&[Service::DataBus], &[], &[Service::System]),
            (&[Service::System], &[Service::DataBus], &[]),
        ],
        Err(ServiceRefusal::CycleOfNeeds { plug: 2 }),
    ),
];

fn specs_of(alloc: Global, rows: &[Row]) -> Result<Vec<ServiceUse>, AllocError> {
    let mut specs = Vec::new(alloc);
    for (offers, needs, uses) in rows {
        specs.push(ServiceUse {
            offers: List::of(Vec::from_slice(alloc, *offers)?),
            needs: List::of(Vec::from_slice(alloc, *needs)?),
            uses: List::of(Vec::from_slice(alloc, *uses)?),
        })?;
    }
    Ok(specs)
}

fn answer(alloc: Global, rows: &[Row]) -> Result<Vec<u32>, ServiceRefusal> {
    match specs_of(alloc, rows) {
        Ok(specs) if specs.len() < 100 => order(alloc, &specs),
        _ => Err(ServiceRefusal::NoMemory),
    }
}

/// The number of the first case whose answer is not the wanted one.
pub fn first_wrong(alloc: Global) -> Option<usize> {
    for (number, (rows, wanted)) in CASES.iter().enumerate() {
        let is_so = match (&answer(alloc, *rows), wanted) {
            (Ok(found), Ok(wanted)) => found.as_slice() == *wanted,
            (Err(found), Err(wanted)) => found == wanted,
            _ => false,
        };
        if !is_so {
            return Some(number);
        }
    }
    None
}
