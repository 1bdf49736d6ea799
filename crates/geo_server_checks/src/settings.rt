//! What no contract of configurations says: which fault comes, in which words, and that the values are the document's.
use geo_config::{ApartConfig, Config, config, config_apart};
use std::alloc::{AllocError, Global};
use std::test::Fail;

/// What is told of a text: the values of its configuration, or its fault as the program prints it.
fn told(alloc: Global, text: &str) -> Result<String, AllocError> {
    match config(alloc, text) {
        Ok(config) => shown(alloc, &config),
        Err(fault) => format!(in alloc; "{fault}"),
    }
}

/// What is told of a text for one site alone: the values, behind how many connections are said.
fn told_apart(alloc: Global, text: &str) -> Result<String, AllocError> {
    match config_apart(alloc, text) {
        Ok(ApartConfig { config, sessions }) => {
            let shown = shown(alloc, &config)?;
            format!(in alloc; "{sessions:?} {shown}")
        }
        Err(fault) => format!(in alloc; "{fault}"),
    }
}

/// The values in the order in which the format lists them, the era's length and bytes, fills, the audit, patience and drain where they
/// aren't the defaults, each site behind a semicolon.
fn shown(alloc: Global, config: &Config) -> Result<String, AllocError> {
    let Config {
        pages,
        max_records,
        reap_after,
        link,
        every,
        era,
        era_bytes,
        fills,
        audit,
        patience,
        drain,
        sessions,
        sites,
    } = config;
    let mut text = format!(in alloc;
        "{pages} {max_records} {reap_after} {link:?} {every} {sessions}"
    )?;
    if *era != 1_000_000 {
        text.push_str(format!(in alloc; " era {era}")?.as_str())?;
    }
    if *era_bytes != 268_435_456 {
        text.push_str(format!(in alloc; " bytes {era_bytes}")?.as_str())?;
    }
    if *fills {
        text.push_str(" fills")?;
    }
    if !*audit {
        text.push_str(" unaudited")?;
    }
    if *patience != 5_000 {
        text.push_str(format!(in alloc; " patience {patience}")?.as_str())?;
    }
    if *drain != 5_000 {
        text.push_str(format!(in alloc; " drain {drain}")?.as_str())?;
    }
    for site in sites.iter() {
        let peer = site.peer.as_ref().map_or("-", String::as_str);
        let line = format!(in alloc; "; {} {} {} {peer}", site.number, site.client, site.workers)?;
        text.push_str(line.as_str())?;
    }
    Ok(text)
}

/// A document with 5 sessions and one site, with more lines at its top and for its site.
fn document(alloc: Global, top: &str, site: &str) -> Result<String, AllocError> {
    format!(in alloc; "sessions = 5\n{top}\n[[site]]\nnumber = 1\nclient = \"a\"\n{site}\n")
}

/// A document with so many sites, the last of them first.
fn with_sites(alloc: Global, count: u8) -> Result<String, AllocError> {
    let mut text = String::from_str(alloc, "sessions = 5\n")?;
    for number in (1..=count).rev() {
        let site = format!(in alloc; "[[site]]\nnumber = {number}\nclient = \"a\"\n")?;
        text.push_str(site.as_str())?;
    }
    Ok(text)
}

/// Keys one by one: lines at the top, lines for the site, what is told.
const KEYS: [(&str, &str, &str); 56] = [
    ("", "", "64 100000 60 Memory 100 5; 1 a 4 -"),
    ("pages = 14", "", "out of range pages"),
    ("pages = 15", "", "15 100000 60 Memory 100 5; 1 a 4 -"),
    ("pages = 65536", "", "65536 100000 60 Memory 100 5; 1 a 4 -"),
    ("pages = 65537", "", "out of range pages"),
    ("pages = -15", "", "out of range pages"),
    ("pages = 9223372036854775807", "", "out of range pages"),
    ("pages = 64.0", "", "wrong type pages"),
    ("pages.of = 64", "", "wrong type pages"),
    ("pages = 64\npages = 64", "", "not toml"),
    ("pages", "", "not toml"),
    ("max_records = 0", "", "out of range max_records"),
    ("max_records = 1", "", "64 1 60 Memory 100 5; 1 a 4 -"),
    (
        "max_records = 1000000",
        "",
        "64 1000000 60 Memory 100 5; 1 a 4 -",
    ),
    ("max_records = 1000001", "", "out of range max_records"),
    ("max_records = true", "", "wrong type max_records"),
    ("reap_after = -1", "", "out of range reap_after"),
    ("reap_after = 0", "", "64 100000 0 Memory 100 5; 1 a 4 -"),
    (
        "reap_after = 2147483647",
        "",
        "64 100000 2147483647 Memory 100 5; 1 a 4 -",
    ),
    ("reap_after = 2147483648", "", "out of range reap_after"),
    ("reap_after = [60]", "", "wrong type reap_after"),
    (
        "link = \"memory\" # the default",
        "",
        "64 100000 60 Memory 100 5; 1 a 4 -",
    ),
    (
        "link = \"tcp\"",
        "peer = \"b\"",
        "64 100000 60 Tcp 100 5; 1 a 4 b",
    ),
    ("link = \"udp\"", "", "out of range link"),
    ("link = \"TCP\"", "peer = \"b\"", "out of range link"),
    ("link = 1", "", "wrong type link"),
    ("every = 0", "", "out of range every"),
    ("every = 1", "", "64 100000 60 Memory 1 5; 1 a 4 -"),
    ("every = 60000", "", "64 100000 60 Memory 60000 5; 1 a 4 -"),
    ("every = 60001", "", "out of range every"),
    ("every = 2026-01-01", "", "wrong type every"),
    ("site = []", "", "not toml"),
    ("", "number = 1", "not toml"),
    ("", "workers = 0", "out of range workers"),
    ("", "workers = 1", "64 100000 60 Memory 100 5; 1 a 1 -"),
    ("", "workers = 128", "64 100000 60 Memory 100 5; 1 a 128 -"),
    ("", "workers = 129", "out of range workers"),
    ("", "workers = \"4\"", "wrong type workers"),
    ("", "peer = \"b\"", "unknown peer"),
    ("", "peer = 1", "unknown peer"),
    ("link = \"tcp\"", "", "missing peer"),
    ("link = \"tcp\"", "peer = 1", "wrong type peer"),
    ("page = 1", "", "unknown page"),
    ("number = 1", "", "unknown number"),
    ("", "pages = 64", "unknown pages"),
    ("\"a b\" = 1", "", "unknown a b"),
    // Two faults: of two classes the first class, of one class the first key.
    ("pages = 14", "workers = \"4\"", "wrong type workers"),
    ("link = \"tcp\"\npages = \"64\"", "", "missing peer"),
    ("link = 1\npages = \"64\"", "", "wrong type pages"),
    ("every = 0\nlink = \"udp\"", "", "out of range link"),
    ("every = 0", "workers = 0", "out of range every"),
    ("page = 1", "workers = 0", "out of range workers"),
    ("page = 1", "worker = 1", "unknown page"),
    ("zone = 1\npage = 1", "", "unknown page"),
    ("link = \"udp\"", "peer = 1", "out of range link"),
    ("link = 1", "client.of = 1", "not toml"),
];

/// What is told of the document with such lines.
fn told_of_lines(alloc: Global, top: &str, site: &str) -> Result<String, AllocError> {
    let text = document(alloc, top, site)?;
    told(alloc, text.as_str())
}

/// Whole documents, and what is told of them.
const DOCUMENTS: [(&str, &str); 30] = [
    ("", "missing sessions"),
    ("# nothing\n", "missing sessions"),
    ("sessions = 5\n", "missing site"),
    ("pages = \"64\"\n[[site]]\n", "missing sessions"),
    ("sessions = 5\nsite = []\n", "out of range site"),
    ("sessions = 5\nsite = 1\n", "wrong type site"),
    ("sessions = 5\nsite = [1]\n", "wrong type site"),
    (
        "sessions = 5\n[site]\nnumber = 1\nclient = \"a\"\n",
        "wrong type site",
    ),
    ("sessions = 5\nsite = [1, {number = 1}]\n", "missing client"),
    ("sessions = 0\nsite = []\n", "out of range sessions"),
    (
        "sessions = 1\nsite = [{number = 1, client = \"a\"}]\n",
        "64 100000 60 Memory 100 1; 1 a 4 -",
    ),
    (
        "sessions = 1048576\nsite = [{number = 1, client = \"a\"}]\n",
        "64 100000 60 Memory 100 1048576; 1 a 4 -",
    ),
    (
        "sessions = 1048577\nsite = [{number = 1, client = \"a\"}]\n",
        "out of range sessions",
    ),
    (
        "sessions = \"5\"\nsite = [{number = 1, client = \"a\"}]\n",
        "wrong type sessions",
    ),
    ("sessions = \"5\"\nsite = 1\n", "wrong type sessions"),
    ("sessions = 5\n[[site]]\n", "missing number"),
    ("sessions = 5\n[[site]]\nnumber = 1\n", "missing client"),
    (
        "sessions = 5\n[[site]]\nnumber = 1\n[[site]]\nclient = \"a\"\n",
        "missing client",
    ),
    (
        "sessions = 5\n[[site]]\nnumber = \"1\"\nclient = 1\n",
        "wrong type number",
    ),
    (
        "sessions = 5\n[[site]]\nnumber = 1\nclient = 1\n",
        "wrong type client",
    ),
    (
        "sessions = 5\n[[site]]\nnumber = 0\nclient = \"a\"\n",
        "out of range number",
    ),
    (
        "sessions = 5\n[[site]]\nnumber = 17\nclient = \"a\"\n",
        "out of range number",
    ),
    (
        "sessions = 5\n[[site]]\nnumber = 2\nclient = \"a\"\n",
        "site numbers",
    ),
    (
        "sessions = 5\nx = 1\n[[site]]\nnumber = 2\nclient = \"a\"\n",
        "unknown x",
    ),
    (
        "sessions = 5\nsite = [{number = 1, client = \"a\"}, {number = 1, client = \"b\"}]\n",
        "site numbers",
    ),
    (
        "sessions = 5\nsite = [{number = 3, client = \"a\"}, {number = 1, client = \"b\"}]\n",
        "site numbers",
    ),
    (
        "sessions = 5\nsite = [{number = 2, client = \"a\"}, {number = 1, client = \"b\"}]\n",
        "64 100000 60 Memory 100 5; 1 b 4 -; 2 a 4 -",
    ),
    (
        "sessions = 5\nsite = [{number = 1, client = \"a\", workers = 0}, {number = 0, client = \"b\"}]\n",
        "out of range workers",
    ),
    (
        "sessions = 5\nsite = [{number = 1, client = \"a\"}, {number = 1, client = \"b\", z = 1, y = 1}]\n",
        "unknown y",
    ),
    (
        "sessions = 5\nlink = \"tcp\"\nsite = [{number = 1, peer = \"b\"}, {client = \"a\"}]\n",
        "missing client",
    ),
];

/// All of sixteen sites, which stand in the document from the last on.
const SIXTEEN: &str =
    "64 100000 60 Memory 100 5; 1 a 4 -; 2 a 4 -; 3 a 4 -; 4 a 4 -; 5 a 4 -; 6 a 4 -; 7 a 4 -; 8 a 4 -; \
    9 a 4 -; 10 a 4 -; 11 a 4 -; 12 a 4 -; 13 a 4 -; 14 a 4 -; 15 a 4 -; 16 a 4 -";

/// What is told of the document of so many sites.
fn told_of_sites(alloc: Global, count: u8) -> Result<String, AllocError> {
    let text = with_sites(alloc, count)?;
    told(alloc, text.as_str())
}

/// Lines that turn something on or off, and what is told.
const SWITCHES: [(&str, &str); 8] = [
    ("fills = true", "64 100000 60 Memory 100 5 fills; 1 a 4 -"),
    ("fills = false", "64 100000 60 Memory 100 5; 1 a 4 -"),
    ("fills = 1", "wrong type fills"),
    ("fills = \"true\"", "wrong type fills"),
    ("audit = true", "64 100000 60 Memory 100 5; 1 a 4 -"),
    (
        "audit = false",
        "64 100000 60 Memory 100 5 unaudited; 1 a 4 -",
    ),
    ("audit = 0", "wrong type audit"),
    ("audit = \"no\"\nfills = 0", "wrong type fills"),
];

/// How many bytes the steps of an era may keep: a line at the top, what is told.
const BYTES: [(&str, &str); 6] = [
    ("era_bytes = 1048575", "out of range era_bytes"),
    (
        "era_bytes = 1048576",
        "64 100000 60 Memory 100 5 bytes 1048576; 1 a 4 -",
    ),
    (
        "era_bytes = 1099511627776",
        "64 100000 60 Memory 100 5 bytes 1099511627776; 1 a 4 -",
    ),
    ("era_bytes = 1099511627777", "out of range era_bytes"),
    ("era_bytes = \"1048576\"", "wrong type era_bytes"),
    ("era_bytes = 0\nera = 0", "out of range era"),
];

/// How long is waited: a line at the top, what is told.
const WAITS: [(&str, &str); 12] = [
    ("patience = 99", "out of range patience"),
    (
        "patience = 100",
        "64 100000 60 Memory 100 5 patience 100; 1 a 4 -",
    ),
    (
        "patience = 600000",
        "64 100000 60 Memory 100 5 patience 600000; 1 a 4 -",
    ),
    ("patience = 600001", "out of range patience"),
    ("patience = \"5000\"", "wrong type patience"),
    ("drain = -1", "out of range drain"),
    ("drain = 0", "64 100000 60 Memory 100 5 drain 0; 1 a 4 -"),
    (
        "drain = 600000",
        "64 100000 60 Memory 100 5 drain 600000; 1 a 4 -",
    ),
    ("drain = 600001", "out of range drain"),
    ("drain = 5.0", "wrong type drain"),
    ("drain = 600001\npatience = 1", "out of range patience"),
    ("patience = 1\nera = 0", "out of range era"),
];

#[test]
fn tells_how_long_is_waited(rt: HostRuntime) -> Result<(), Fail> {
    for (top, want) in WAITS {
        assert_eq!(rt; told_of_lines(rt.alloc(), top, "")?.as_str(), want, "{top}");
    }
    Ok(())
}

/// Documents for one site alone, of which this is the end, and what is told of each.
const APART_END: &str = "[[site]]\nnumber = 1\nclient = \"a\"\npeer = \"b\"\n";

const APART: [(&str, &str); 10] = [
    (
        "link = \"tcp\"",
        "None 64 100000 60 Tcp 100 1048576; 1 a 4 b",
    ),
    (
        "link = \"tcp\"\nsessions = 7",
        "Some(7) 64 100000 60 Tcp 100 7; 1 a 4 b",
    ),
    (
        "link = \"tcp\"\nsessions = 1048576",
        "Some(1048576) 64 100000 60 Tcp 100 1048576; 1 a 4 b",
    ),
    ("link = \"tcp\"\nsessions = 0", "out of range sessions"),
    (
        "link = \"tcp\"\nsessions = 1048577",
        "out of range sessions",
    ),
    ("link = \"tcp\"\nsessions = true", "wrong type sessions"),
    ("link = \"memory\"", "out of range link"),
    ("", "out of range link"),
    ("pages = 14", "out of range pages"),
    ("every = 0", "out of range link"),
];

#[test]
fn tells_of_documents_for_one_site_alone(rt: HostRuntime) -> Result<(), Fail> {
    let alloc = rt.alloc();
    for (top, want) in APART {
        let text = format!(in alloc; "{top}\n{APART_END}")?;
        assert_eq!(rt; told_apart(alloc, text.as_str())?.as_str(), want, "{top}");
    }
    assert_eq!(rt; told_apart(alloc, "")?.as_str(), "missing site");
    assert_eq!(rt; told_apart(alloc, "= 1")?.as_str(), "not toml");
    Ok(())
}

#[test]
fn tells_of_the_bytes_of_an_era(rt: HostRuntime) -> Result<(), Fail> {
    for (top, want) in BYTES {
        assert_eq!(rt; told_of_lines(rt.alloc(), top, "")?.as_str(), want, "{top}");
    }
    Ok(())
}

#[test]
fn tells_what_is_turned_on_or_off(rt: HostRuntime) -> Result<(), Fail> {
    for (top, want) in SWITCHES {
        assert_eq!(rt; told_of_lines(rt.alloc(), top, "")?.as_str(), want, "{top}");
    }
    Ok(())
}

#[test]
fn tells_of_each_document(rt: HostRuntime) -> Result<(), Fail> {
    let alloc = rt.alloc();
    for (top, site, want) in KEYS {
        assert_eq!(rt;
            told_of_lines(alloc, top, site)?.as_str(),
            want,
            "{top} / {site}"
        );
    }
    for (text, want) in DOCUMENTS {
        assert_eq!(rt; told(alloc, text)?.as_str(), want, "{text}");
    }
    for (count, want) in [(16, SIXTEEN), (17, "out of range site")] {
        assert_eq!(rt;
            told_of_sites(alloc, count)?.as_str(),
            want,
            "{count} sites"
        );
    }
    Ok(())
}
