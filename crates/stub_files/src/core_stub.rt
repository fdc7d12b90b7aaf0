//! The core stub: the selection of the library's classes that comes with the program, as file 0.

ghost use Rattle.std.specs.Prelude.{◌≡◌};
ghost use Rattle.stub_files.specs.CoreStub.{core_stub};

/// The name under which refusals and reports show the core stub, which is file 0.
pub const CORE_NAME: &str = "core.astub";

/// The text of the core stub, file 0. Its first section, of `java.lang`, is read in every check; the others are read unless
/// the settings say `core = false`. Methods that Java declares abstract stand in it without that word.
pub fn core_text() -> &'static [u8]
    ensures { result.now ≡ core_stub }
{
    CORE_STUB.as_bytes()
}

const CORE_STUB: &str = "package java.lang;
public class Object { public Object(); public boolean equals(Object o);
  public int hashCode(); public String toString(); }
public final class String { public int length(); public boolean isEmpty();
  public char charAt(int i); public String trim(); public String substring(int a, int b); }
public class Throwable { public Throwable(); public Throwable(String m); public String getMessage(); }
public class Exception extends Throwable { public Exception(); public Exception(String m); }
public class Error extends Throwable { public Error(); public Error(String m); }
public class RuntimeException extends Exception { public RuntimeException(); public RuntimeException(String m); }
public class IllegalArgumentException extends RuntimeException { public IllegalArgumentException(); public IllegalArgumentException(String m); }
public class IllegalStateException extends RuntimeException { public IllegalStateException(); public IllegalStateException(String m); }
public class NumberFormatException extends IllegalArgumentException { }
public class NullPointerException extends RuntimeException { }
public class ArithmeticException extends RuntimeException { }
public class ClassCastException extends RuntimeException { }
public class NegativeArraySizeException extends RuntimeException { }
public class IndexOutOfBoundsException extends RuntimeException { }
public class ArrayIndexOutOfBoundsException extends IndexOutOfBoundsException { }
@InheritableMustCall(\"close\") public interface AutoCloseable { void close() throws Exception; }
public final class Integer { public static int parseInt(String s) throws NumberFormatException; }
package java.io;
public class IOException extends Exception { public IOException(); public IOException(String m); }
public class FileNotFoundException extends IOException { public FileNotFoundException(); }
public interface Closeable extends AutoCloseable { void close() throws IOException; }
public abstract class InputStream implements Closeable { public int read() throws IOException;
  public int read(byte[] b) throws IOException; public void close() throws IOException; }
public abstract class OutputStream implements Closeable { public void write(int b) throws IOException;
  public void write(byte[] b) throws IOException; public void flush() throws IOException;
  public void close() throws IOException; }
public class FileInputStream extends InputStream { public FileInputStream(String n) throws FileNotFoundException; }
public class FileOutputStream extends OutputStream { public FileOutputStream(String n) throws FileNotFoundException; }
public class PrintStream extends OutputStream { @MustCallAlias public PrintStream(@MustCallAlias OutputStream o);
  public void println(String s); public void println(int i); public void write(int b);
  public void flush(); public void close(); }
public abstract class Reader implements Closeable { public int read() throws IOException; public void close() throws IOException; }
public abstract class Writer implements Closeable { public void write(String s) throws IOException; public void close() throws IOException; }
public class InputStreamReader extends Reader { @MustCallAlias public InputStreamReader(@MustCallAlias InputStream i); }
public class BufferedReader extends Reader { @MustCallAlias public BufferedReader(@MustCallAlias Reader r);
  public String readLine() throws IOException; }
public class PrintWriter extends Writer { @MustCallAlias public PrintWriter(@MustCallAlias OutputStream o, boolean f);
  public void println(String s); public void write(String s); public void close(); }
package java.lang;
import java.io.*;
public final class System { public static final InputStream in; public static final PrintStream out;
  public static final PrintStream err; }
package java.net;
import java.io.*;
public class UnknownHostException extends IOException { public UnknownHostException(); }
public abstract class SocketAddress { }
public class InetSocketAddress extends SocketAddress { public InetSocketAddress(String h, int p); }
public class Socket implements Closeable { @MustCall({}) public Socket();
  public Socket(String h, int p) throws UnknownHostException, IOException;
  @CreatesMustCallFor(\"this\") public void connect(SocketAddress a) throws IOException;
  @MustCallAlias public InputStream getInputStream(@MustCallAlias Socket this) throws IOException;
  @MustCallAlias public OutputStream getOutputStream(@MustCallAlias Socket this) throws IOException;
  public void close() throws IOException; }
";
