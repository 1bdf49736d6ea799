//! Requests.
use crate::Equal;
use geo_requests::Request;

impl Equal for Request {
    fn equals(&self, other: &Self) -> bool {
        match (self, other) {
            (
                Request::Store {
                    verb,
                    key,
                    flags,
                    exptime,
                    unique,
                    bytes,
                    noreply,
                },
                Request::Store {
                    verb: verb2,
                    key: key2,
                    flags: flags2,
                    exptime: exptime2,
                    unique: unique2,
                    bytes: bytes2,
                    noreply: noreply2,
                },
            ) => {
                *verb == *verb2
                    && key.equals(key2)
                    && *flags == *flags2
                    && *exptime == *exptime2
                    && *unique == *unique2
                    && bytes.equals(bytes2)
                    && *noreply == *noreply2
            }
            (
                Request::Fetch { keys, numbers },
                Request::Fetch {
                    keys: keys2,
                    numbers: numbers2,
                },
            ) => keys.equals(keys2) && *numbers == *numbers2,
            (
                Request::FetchTouch {
                    exptime,
                    keys,
                    numbers,
                },
                Request::FetchTouch {
                    exptime: exptime2,
                    keys: keys2,
                    numbers: numbers2,
                },
            ) => *exptime == *exptime2 && keys.equals(keys2) && *numbers == *numbers2,
            (
                Request::Delete { key, noreply },
                Request::Delete {
                    key: key2,
                    noreply: noreply2,
                },
            ) => key.equals(key2) && *noreply == *noreply2,
            (
                Request::Touch {
                    key,
                    exptime,
                    noreply,
                },
                Request::Touch {
                    key: key2,
                    exptime: exptime2,
                    noreply: noreply2,
                },
            ) => key.equals(key2) && *exptime == *exptime2 && *noreply == *noreply2,
            (
                Request::Arith {
                    up,
                    key,
                    by,
                    noreply,
                },
                Request::Arith {
                    up: up2,
                    key: key2,
                    by: by2,
                    noreply: noreply2,
                },
            ) => *up == *up2 && key.equals(key2) && *by == *by2 && *noreply == *noreply2,
            (
                Request::FlushAll { delay, noreply },
                Request::FlushAll {
                    delay: delay2,
                    noreply: noreply2,
                },
            ) => *delay == *delay2 && *noreply == *noreply2,
            (Request::Verbosity { noreply }, Request::Verbosity { noreply: noreply2 }) => {
                *noreply == *noreply2
            }
            (Request::ShowVersion, Request::ShowVersion)
            | (Request::Stats, Request::Stats)
            | (Request::Quit, Request::Quit) => true,
            _ => false,
        }
    }
}
