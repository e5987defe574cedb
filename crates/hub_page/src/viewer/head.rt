//! `viewer/head.html`, as `tools/embed_viewer.py` writes it.

pub(super) const TEXT: &str = "<!doctype html>
<html lang=\"en\">
<head>
<meta charset=\"utf-8\">
<meta name=\"viewport\" content=\"width=device-width\">
<meta http-equiv=\"Content-Security-Policy\" content=\"default-src 'none'; img-src data:; style-src 'unsafe-inline'; script-src 'unsafe-inline'\">
<link rel=\"icon\" href=\"data:,\">
<title>A journal</title>
<style>
";
